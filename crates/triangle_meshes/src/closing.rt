//! Whether every directed edge occurs as often as its reverse.
ghost use Rattle.std.specs.Prelude.{◌≡◌, ℕ, ◌+◌, ◌^◌, ◌<◌, ◌≤◌, ◌↔◌, IsTrue, All, length, count_by, IfOk, OnOk, if◌then◌else◌};
ghost use Rattle.std.specs.List.{flat_map};
ghost use Rattle.plane_geom.specs.Rings.{ring_edges, IsClosed};
ghost use Rattle.triangle_meshes.specs.Keys.{times, is_forth, is_back};
ghost use Rattle.triangle_meshes.specs.Meshes.{surface_of, IsValid};

use crate::keys::key;
use crate::meshes::Mesh;
use fku_types::NoMemory;
use fku_types::limits::MAX_MESH_TRIANGLES;
use std::alloc::Global;

// The keys of edges to a greater id, and of the reverses of edges to a smaller one.
#[derive(Drop)]
struct Ways {
    forth: Vec<u64>,
    back: Vec<u64>,
}

fn add_edge(ways: &mut Ways, from: u32, to: u32) -> Result<(), NoMemory>
    ensures forth { OnOk result ((k : ℕ)
        → times k ways.new.forth.items ≡ times k ways.old.forth.items + (if is_forth k (from, to) then 1 else 0)) }
    ensures back { OnOk result ((k : ℕ)
        → times k ways.new.back.items ≡ times k ways.old.back.items + (if is_back k (from, to) then 1 else 0)) }
{
    if from < to {
        ways.forth.push(key(from, to))?;
    } else if to < from {
        ways.back.push(key(to, from))?;
    }
    Ok(())
}

// Adds the edges of triangles.
fn add_edges(ways: &mut Ways, triangles: &[[u32; 3]]) -> Result<(), NoMemory>
    ensures forth { OnOk result ((k : ℕ)
        → times k ways.new.forth.items
        ≡ times k ways.old.forth.items + count_by (is_forth k) (flat_map ring_edges triangles.now)) }
    ensures back { OnOk result ((k : ℕ)
        → times k ways.new.back.items
        ≡ times k ways.old.back.items + count_by (is_back k) (flat_map ring_edges triangles.now)) }
{
    for triangle in triangles {
        let [a, b, c] = *triangle;
        add_edge(ways, a, b)?;
        add_edge(ways, b, c)?;
        add_edge(ways, c, a)?;
    }
    Ok(())
}

fn all_ways(alloc: Global, triangles: &[[u32; 3]]) -> Result<Ways, NoMemory>
    requires { length triangles.now ≤ MAX_MESH_TRIANGLES }
    ensures forth { IfOk result (λ w. (k : ℕ)
        → times k w.forth.items ≡ count_by (is_forth k) (flat_map ring_edges triangles.now)) }
    ensures back { IfOk result (λ w. (k : ℕ)
        → times k w.back.items ≡ count_by (is_back k) (flat_map ring_edges triangles.now)) }
{
    let mut ways = Ways {
        forth: Vec::with_capacity(alloc, 2 * triangles.len())?,
        back: Vec::with_capacity(alloc, 2 * triangles.len())?,
    };
    add_edges(&mut ways, triangles)?;
    Ok(ways)
}

// Whether two lists have each number equally often.
fn have_same(first: Vec<u64>, second: Vec<u64>) -> bool
    ensures { IsTrue result ↔ ((k : ℕ) → times k first.items ≡ times k second.items) }
{
    let mut first = first;
    let mut second = second;
    first.sort_unstable();
    second.sort_unstable();
    first.as_slice() == second.as_slice()
}

/// Whether triangles, at most `MAX_MESH_TRIANGLES`, have every directed edge as often as its reverse; or `NoMemory`.
pub fn is_closed(alloc: Global, triangles: &[[u32; 3]]) -> Result<bool, NoMemory>
    requires few { length triangles.now ≤ MAX_MESH_TRIANGLES }
    requires ids { All (All (λ id. id < 2 ^ 32)) triangles.now }
    ensures { IfOk result (λ b. IsTrue b ↔ IsClosed triangles.now) }
{
    let ways = all_ways(alloc, triangles)?;
    Ok(have_same(ways.forth, ways.back))
}

/// Whether each part of a valid mesh has every directed edge as often as its reverse; or `NoMemory`.
pub fn balanced(alloc: Global, mesh: &Mesh) -> Result<bool, NoMemory>
    requires { IsValid (surface_of mesh.now) }
    ensures { IfOk result (λ b. IsTrue b ↔ All IsClosed (surface_of mesh.now).parts) }
{
    for part in &mesh.parts {
        if !is_closed(alloc, part)? {
            return Ok(false);
        }
    }
    Ok(true)
}
