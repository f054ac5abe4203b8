//! Crossings of one triangle with later ones.
ghost use Rattle.std.specs.Prelude.{◌≡◌, ℕ, ◌+◌, ◌<◌, ◌≤◌, ◌^◌, ◌∷◌, [], length, All, count_by, slice_index, slice_index_or, ◌≤ℤ◌};
ghost use Rattle.mesh_measures.specs.TriangleBoxes.{IsBoxed, ComesAfter, IsSwept, crosses, crosses_at, LiesPast, RisesBy, x_of, z_of};

use crate::triangle_boxes::{Boxed, crosses};

// Whether a triangle crosses another one, as 1 or 0; counts a crossing at the other's place.
#[inline(always)]
fn count_one(first: &Boxed, other: &Boxed, counts: &mut [u32]) -> u32
    requires first { IsBoxed first.now }
    requires other { IsBoxed other.now }
    requires place { other.now.place < length counts.old }
    requires room { (i : ℕ) → slice_index counts.old i + count_by (crosses_at first.now i) (other.now ∷ []) < 2 ^ 32 }
    ensures own { result ≡ count_by (crosses first.now) (other.now ∷ []) }
    ensures counts { (i : ℕ) → slice_index counts.new i ≡ slice_index counts.old i
        + count_by (crosses_at first.now i) (other.now ∷ []) }
{
    if crosses(first, other) {
        counts[other.place as usize] += 1;
        1
    } else {
        0
    }
}

// How many of some others a triangle crosses; counts each of these at its place.
fn count_crossed(first: &Boxed, others: &[Boxed], counts: &mut [u32]) -> u32
    requires first { IsBoxed first.now }
    requires others { All IsBoxed others.now }
    requires places { All (λ f. f.place < length counts.old) others.now }
    requires few { length others.now < 2 ^ 32 }
    requires room { (i : ℕ) → slice_index counts.old i + count_by (crosses_at first.now i) others.now < 2 ^ 32 }
    ensures own { result ≡ count_by (crosses first.now) others.now }
    ensures counts { (i : ℕ) → slice_index counts.new i ≡ slice_index counts.old i
        + count_by (crosses_at first.now i) others.now }
{
    let mut own = 0;
    for other in others {
        own += count_one(first, other, counts);
    }
    own
}

// The end of those whose box begins at most at z.
fn level_end(behind: &[Boxed], z: i32) -> usize
    requires { RisesBy z_of behind.now }
    ensures within { result ≤ length behind.now }
    ensures level { (k : ℕ) (d : Boxed) → k < result → (slice_index_or behind.now k d).least.z ≤ℤ z }
{
    behind.partition_point(|b| b.least.z <= z)
}

// The end of those whose box begins below z.
fn low_end(higher: &[Boxed], z: i32) -> usize
    requires { RisesBy z_of higher.now }
    ensures within { result ≤ length higher.now }
    ensures past { LiesPast z_of z higher.now result }
{
    higher.partition_point(|b| b.least.z < z)
}

// The end of those whose box begins before x.
fn near_end(level: &[Boxed], x: i32) -> usize
    requires { RisesBy x_of level.now }
    ensures within { result ≤ length level.now }
    ensures past { LiesPast x_of x level.now result }
{
    level.partition_point(|b| b.least.x < x)
}

/// How many of the later triangles a triangle crosses; counts each of these at its place.
pub fn count_behind(first: &Boxed, behind: &[Boxed], counts: &mut [u32]) -> u32
    requires first { IsBoxed first.now }
    requires boxed { All IsBoxed behind.now }
    requires behind { All (ComesAfter first.now) behind.now }
    requires swept { IsSwept behind.now }
    requires places { All (λ f. f.place < length counts.old) behind.now }
    requires few { length behind.now < 2 ^ 32 }
    requires room { (i : ℕ) → slice_index counts.old i + count_by (crosses_at first.now i) behind.now < 2 ^ 32 }
    ensures own { result ≡ count_by (crosses first.now) behind.now }
    ensures counts { (i : ℕ) → slice_index counts.new i ≡ slice_index counts.old i
        + count_by (crosses_at first.now i) behind.now }
{
    // Triangles of one height are ordered by x. Where layers lie one above another, none of those that begin higher is
    // near.
    let (level, higher) = behind.split_at(level_end(behind, first.least.z));
    let near = near_end(level, first.greatest.x);
    let low = low_end(higher, first.greatest.z);
    let own = count_crossed(first, &level[..near], counts);
    own + count_crossed(first, &higher[..low], counts)
}
