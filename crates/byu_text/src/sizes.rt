//! The lines of the parts.
ghost use Rattle.std.specs.Prelude.{◌≡◌, ◌+◌, ◌-◌, ◌*◌, ◌<◌, ◌≤◌, ◌^◌, ◌++◌, ◌↔◌, IsTrue, drop, MatchOption, IfOk, IfErr};
ghost use Rattle.byu_text.specs.Pieces.{size_line};
ghost use Rattle.byu_text.specs.Stages.{counts_of, HasHead, HasSizes, IsSize, NoneOf};
ghost use Rattle.byu_text.specs.Answers.{IsMeshFault};

use crate::head::Head;
use crate::read_fields::{line_at, number_of};
use fku_types::Fault;
use fku_types::limits::{MAX_MESH_PARTS, MAX_MESH_TRIANGLES};
use std::alloc::Global;

// Whether the next part can have this size, if `left` polygons are left and `later` parts come later.
fn is_size(size: usize, left: usize, later: usize) -> bool
    requires some { 1 ≤ size }
    requires size { size ≤ 10 ^ 8 }
    requires later { later ≤ MAX_MESH_PARTS }
    ensures { IsTrue result ↔ IsSize left later size }
{
    size + later <= left && (later != 0 || size == left)
}

// The size of the part whose line is at a place, if its first polygon has this number; none if no such line is there.
fn size_at(text: &[u8], at: usize, first: usize, left: usize, later: usize) -> Option<usize>
    requires place { at ≤ 10 ^ 6 }
    requires some { 1 ≤ first }
    requires few { first + left ≤ MAX_MESH_TRIANGLES + 1 }
    requires later { later ≤ MAX_MESH_PARTS }
    ensures { MatchOption result (NoneOf (IsSize left later) (size_line first) (drop at text.now)) (λ n.
        IsSize left later n × (drop at text.now ≡ size_line first n ++ drop (at + 17) text.now)) }
{
    let line = line_at(text, at, 16)?;
    let start = number_of(&line[..8])? as usize;
    let last = number_of(&line[8..16])? as usize;
    if start != first || last < first {
        return None;
    }
    let size = last - first + 1;
    if is_size(size, left, later) {
        Some(size)
    } else {
        None
    }
}

/// The sizes of the parts, whose lines follow the first line; or the fault if it is at one of these lines; or
/// `NoMemory`.
pub fn read_sizes(alloc: Global, text: &[u8], head: Head) -> Result<Vec<usize>, Fault>
    requires { HasHead text.now (counts_of head) }
    ensures ok { IfOk result (λ v. HasSizes text.now (counts_of head) v.items) }
    ensures err { IfErr result (IsMeshFault text.now) }
{
    let mut sizes = Vec::with_capacity(alloc, head.parts)?;
    let mut first = 1;
    for part in 0..head.parts {
        let left = head.polygons + 1 - first;
        let later = head.parts - part - 1;
        let Some(size) = size_at(text, 33 + 17 * part, first, left, later) else {
            let line = part as u32 + 2;
            return Err(Fault::ByuForm { line });
        };
        sizes.extend_from_slice(&[size])?;
        first += size;
    }
    Ok(sizes)
}
