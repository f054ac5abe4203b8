//! Unchanged pairs, with the numbers that their vertices have now.
ghost use Rattle.std.specs.Prelude.{◌≡◌, All, IfOk, map};
ghost use Rattle.strip_graph.specs.Strips.{IsStrip};
ghost use Rattle.section_pairs.specs.Pairs.{pair_parts};
ghost use Rattle.section_pairs.specs.Unchanged.{CanMove, CanMovePair, moved_id, moved_pair};

use crate::gap_pairs::{GapPair, add_pair, with_places};
use fku_types::NoMemory;
use plane_geom::Ring;
use std::alloc::Global;
use strip_graph::Pair;

/// The number of a section's first vertex before and now.
#[derive(Clone, Copy)]
pub struct Shift {
    pub from: u32,
    pub to: u32,
}

fn moved_id(id: u32, shift: Shift) -> u32
    requires { CanMove shift id }
    ensures { result ≡ moved_id shift id }
{
    id - shift.from + shift.to
}

fn moved_ids(alloc: Global, ids: &[u32], shift: Shift) -> Result<Vec<u32>, NoMemory>
    requires { All (CanMove shift) ids.now }
    ensures { IfOk result (λ v. v.items ≡ map (moved_id shift) ids.now) }
{
    if shift.from == shift.to {
        return Ok(ids.to_vec(alloc)?);
    }
    let mut moved = Vec::with_capacity(alloc, ids.len())?;
    for id in ids {
        moved.push(moved_id(*id, shift))?;
    }
    Ok(moved)
}

fn moved_ring(alloc: Global, ring: &Ring, shift: Shift) -> Result<Ring, NoMemory>
    requires { All (CanMove shift) ring.now.ids.items }
    ensures points { IfOk result (λ r. r.points.items ≡ ring.now.points.items) }
    ensures ids { IfOk result (λ r. r.ids.items ≡ map (moved_id shift) ring.now.ids.items) }
{
    let points = ring.points.to_vec(alloc)?;
    let ids = moved_ids(alloc, &ring.ids, shift)?;
    Ok(Ring { points, ids })
}

fn moved_pair(alloc: Global, pair: &GapPair, low: Shift, high: Shift) -> Result<GapPair, NoMemory>
    requires { CanMovePair low high (pair_parts pair.now) }
    ensures value { IfOk result (λ p. pair_parts p ≡ moved_pair low high (pair_parts pair.now)) }
    ensures strip { IfOk result (λ p. IsStrip p.pair) }
{
    let lower = moved_ring(alloc, pair.pair.low(), low)?;
    let upper = moved_ring(alloc, pair.pair.high(), high)?;
    let moved = Pair::make(lower, upper, pair.pair.cost());
    with_places(alloc, moved, pair.gap, &pair.below, &pair.above)
}

/// The same pairs with the numbers that their vertices have now; or `NoMemory`.
pub fn moved_pairs(
    alloc: Global,
    pairs: &[GapPair],
    low: Shift,
    high: Shift,
) -> Result<Vec<GapPair>, NoMemory>
    requires { All (CanMovePair low high) (map pair_parts pairs.now) }
    ensures pairs { IfOk result (λ v. map pair_parts v.items ≡ map (moved_pair low high) (map pair_parts pairs.now)) }
    ensures strips { IfOk result (λ v. All (λ p. IsStrip p.pair) v.items) }
{
    let mut moved = Vec::new(alloc);
    for pair in pairs {
        let pair = moved_pair(alloc, pair, low, high)?;
        add_pair(&mut moved, pair)?;
    }
    Ok(moved)
}
