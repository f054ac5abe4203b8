//! Loops of slices, rounded to integer coordinates.
ghost use Rattle.std.specs.Prelude.{◌≡◌, ◌*◌, ◌≤◌, ◌≤ℤ◌, pos, unsigned_abs, All, IfOk, length, map, take};
ghost use Rattle.std.specs.List.{dedup};
ghost use Rattle.fku_types.specs.Points.{IsCoordinate};
ghost use Rattle.section_slices.specs.Roundings.{rounded, rounded_spot, is_same_spot, opened_loop, rounded_loop, IsCloseToOne, IsRoundedInRange};
ghost use Rattle.strip_graph.specs.Slices.{IsOver};

use fku_types::limits::{MAX_COORDINATE, MAX_DIFFERENCE};
use fku_types::{NoMemory, Spot};
use std::alloc::Global;
use strip_graph::Cut;

// A numerator over a denominator, rounded.
fn rounded(den: u32, x: i64) -> i32
    requires some { 1 ≤ den }
    requires few { den ≤ MAX_DIFFERENCE }
    requires x { unsigned_abs x ≤ MAX_COORDINATE * den }
    ensures value { result ≡ rounded den x }
    ensures range { IsCoordinate result }
{
    let den = i64::from(den);
    (2 * x + den).div_euclid(2 * den) as i32
}

fn rounded_spot(den: u32, point: &Cut) -> Spot
    requires some { 1 ≤ den }
    requires few { den ≤ MAX_DIFFERENCE }
    requires point { IsOver den point.now }
    ensures value { result ≡ rounded_spot den point.now }
    ensures range { IsRoundedInRange result }
{
    Spot {
        x: rounded(den, point.x),
        y: rounded(den, point.y),
    }
}

fn all_rounded(alloc: Global, den: u32, points: &[Cut]) -> Result<Vec<Spot>, NoMemory>
    requires some { 1 ≤ den }
    requires few { den ≤ MAX_DIFFERENCE }
    requires points { All (IsOver den) points.now }
    ensures value { IfOk result (λ v. v.items ≡ map (rounded_spot den) points.now) }
    ensures range { IfOk result (λ v. All IsRoundedInRange v.items) }
{
    let mut spots = Vec::with_capacity(alloc, points.len())?;
    for point in points {
        spots.push(rounded_spot(den, point))?;
    }
    Ok(spots)
}

// Removes each spot that is the same as the one before it.
fn drop_repeats(spots: &mut Vec<Spot>)
    ensures { spots.new.items ≡ dedup is_same_spot spots.old.items }
{
    spots.dedup();
}

// How many spots are left after those at the end that are the same as the first are removed.
fn opened_count(spots: &[Spot]) -> usize
    ensures { take result spots.now ≡ opened_loop spots.now }
{
    let mut count = spots.len();
    while count > 1 && spots[count - 1] == spots[0] {
        count -= 1;
    }
    count
}

/// The spots of a loop whose points are numerators over `den`, 1 to `MAX_DIFFERENCE`: each point rounded to the nearest
/// integer coordinates, halves upwards. A spot that is the same as the one before it is removed; after that, while
/// there is more than one spot and the last is the same as the first, the last is removed. There is at least one point,
/// and no numerator is above `MAX_COORDINATE * den` in absolute value. The only error is `NoMemory`.
pub fn round_loop(alloc: Global, points: &[Cut], den: i32) -> Result<Vec<Spot>, NoMemory>
    requires some { pos 1 ≤ℤ den }
    requires few { den ≤ℤ pos MAX_DIFFERENCE }
    requires some_point { 1 ≤ length points.now }
    requires points { All (IsOver (unsigned_abs den)) points.now }
    ensures spots { IfOk result (λ v. v.items ≡ rounded_loop (unsigned_abs den) points.now) }
    // Each spot is at most one half away from one of the points, in x and in y.
    ensures close { IfOk result (λ v. All (IsCloseToOne (unsigned_abs den) points.now) v.items) }
    ensures range { IfOk result (λ v. All IsRoundedInRange v.items) }
    ensures some { IfOk result (λ v. 1 ≤ length v.items) }
{
    let mut spots = all_rounded(alloc, den as u32, points)?;
    drop_repeats(&mut spots);
    let count = opened_count(&spots);
    spots.truncate(count);
    Ok(spots)
}
