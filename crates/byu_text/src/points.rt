//! The lines of the vertices.
ghost use Rattle.std.specs.Prelude.{◌≡◌, ℕ, ◌+◌, ◌*◌, ◌≤◌, ◌^◌, ◌++◌, List, length, drop, MatchOption, IfOk, IfErr};
ghost use Rattle.fku_types.specs.Points.{IsInRange};
ghost use Rattle.byu_text.specs.Fields.{point_fields, coordinates_line};
ghost use Rattle.byu_text.specs.Stages.{counts_of, HasHead, HasSizes, HasPointPairs, HasPoints, AreNext, NoneOf};
ghost use Rattle.byu_text.specs.Answers.{IsMeshFault};
ghost use Rattle.fku_types.specs.declared.points.Point.{Point};

use crate::coordinates::coordinate_of;
use crate::head::Head;
use crate::read_fields::line_at;
use fku_types::{Fault, Point};
use std::alloc::Global;

// The point that three fields write; none if they write none.
fn point_of(fields: &[u8]) -> Option<Point>
    requires { length fields.now ≡ 36 }
    ensures { MatchOption result ((p : Point) → IsInRange p → fields.now ≡ point_fields p → ⊥) (λ p.
        IsInRange p × (fields.now ≡ point_fields p)) }
{
    let x = coordinate_of(&fields[..12])?;
    let y = coordinate_of(&fields[12..24])?;
    let z = coordinate_of(&fields[24..36])?;
    Some(Point { x, y, z })
}

// The last vertex, if it has the line at a place to itself; none if no such line is there.
fn one_at(text: &[u8], at: usize) -> Option<[Point; 1]>
    requires { at ≤ 10 ^ 8 }
    ensures { MatchOption result (NoneOf (AreNext 1) coordinates_line (drop at text.now)) (λ v.
        AreNext 1 v × (drop at text.now ≡ coordinates_line v ++ drop (at + 37) text.now)) }
{
    let line = line_at(text, at, 36)?;
    Some([point_of(line)?])
}

// The two vertices of the line at a place; none if no such line is there.
fn two_at(text: &[u8], at: usize) -> Option<[Point; 2]>
    requires { at ≤ 10 ^ 8 }
    ensures { MatchOption result (NoneOf (AreNext 2) coordinates_line (drop at text.now)) (λ v.
        AreNext 2 v × (drop at text.now ≡ coordinates_line v ++ drop (at + 73) text.now)) }
{
    let line = line_at(text, at, 72)?;
    let first = point_of(&line[..36])?;
    let second = point_of(&line[36..72])?;
    Some([first, second])
}

// The vertices that share lines in pairs.
fn read_pairs(alloc: Global, text: &[u8], head: Head) -> Result<Vec<Point>, Fault>
    requires head { HasHead text.now (counts_of head) }
    requires sizes { (sizes : List ℕ) × HasSizes text.now (counts_of head) sizes }
    ensures ok { IfOk result (λ v. HasPointPairs text.now (counts_of head) v.items) }
    ensures err { IfErr result (IsMeshFault text.now) }
{
    let mut points = Vec::with_capacity(alloc, head.vertices)?;
    for pair in 0..head.vertices / 2 {
        let Some(two) = two_at(text, head.points_at() + 73 * pair) else {
            let line = (head.parts + pair) as u32 + 2;
            return Err(Fault::ByuForm { line });
        };
        points.extend_from_slice(&two)?;
    }
    Ok(points)
}

/// The vertices, whose lines follow those of the parts; or the fault if it is at one of these lines; or `NoMemory`.
pub fn read_points(alloc: Global, text: &[u8], head: Head) -> Result<Vec<Point>, Fault>
    requires head { HasHead text.now (counts_of head) }
    requires sizes { (sizes : List ℕ) × HasSizes text.now (counts_of head) sizes }
    ensures ok { IfOk result (λ v. HasPoints text.now (counts_of head) v.items) }
    ensures err { IfErr result (IsMeshFault text.now) }
{
    let mut points = read_pairs(alloc, text, head)?;
    if head.vertices % 2 == 1 {
        let pairs = head.vertices / 2;
        let Some(one) = one_at(text, head.points_at() + 73 * pairs) else {
            let line = (head.parts + pairs) as u32 + 2;
            return Err(Fault::ByuForm { line });
        };
        points.extend_from_slice(&one)?;
    }
    Ok(points)
}
