//! The surfaces of objects with caps of groups, as one mesh.
ghost use Rattle.std.specs.Prelude.{◌≡◌, ◌+◌, ◌≤◌, ◌++◌, ◌∷◌, [], List, All, IfOk, IfErr, OnOk, length};
ghost use Rattle.fku_types.specs.declared.points.Point.{Point};
ghost use Rattle.plane_geom.specs.Rings.{IsClosed};
ghost use Rattle.triangle_meshes.specs.Meshes.{Surface, surface_of, IsValid};
ghost use Rattle.triangle_meshes.specs.Volumes.{six_volume};
ghost use Rattle.pair_pool.specs.Solvers.{raised_by};
ghost use Rattle.section_pairs.specs.Pairs.{PairParts, IsShort};
ghost use Rattle.section_pairs.specs.SectionFaults.{IsFirstFault, OrNoMemory};
ghost use Rattle.surface_core.specs.Objects.{objects_in, AreAllPairs, pair_lists, numbered, IsLateMemoryIn};
ghost use Rattle.ring_caps.specs.RingSurfaces.{all_group_sizes, HasLongGroup, ArePlainSurfaces, AreRingBuilt, IsRingFoundIn, IsAllRingFault};
ghost use Rattle.ring_caps.specs.Held.{AreGroupCapLists};

use crate::caps::{ByGroup, all_caps};
use fku_types::{Fault, NoMemory};
use pair_pool::PairSolver;
use ring_polygons::CapList;
use section_core::Objects;
use section_pairs::GapPair;
use std::alloc::Global;
use surface_core::{Built, all_strips, assemble_all, pairs_all};

// Appends the caps of an object to those of others.
fn add_caps(each: &mut Vec<Vec<CapList>>, caps: Vec<CapList>) -> Result<(), NoMemory>
    ensures { OnOk result (each.new.items ≡ each.old.items ++ caps ∷ []) }
{
    each.push(caps)?;
    Ok(())
}

// The caps of the groups of each object; or the fault of the first group that is too long.
fn caps_of_each(
    alloc: Global,
    objects: &Objects,
    lists: &[Vec<GapPair>],
) -> Result<Vec<Vec<CapList>>, Fault>
    requires { AreAllPairs objects.now (pair_lists lists.now) }
    ensures caps { IfOk result (λ v. AreGroupCapLists (objects_in objects.now) (pair_lists lists.now) v.items) }
    ensures short { IfOk result (λ _.
        All IsShort (all_group_sizes (objects_in objects.now) (pair_lists lists.now))) }
    ensures fault { IfErr result
        (OrNoMemory
        (IsFirstFault IsShort HasLongGroup (all_group_sizes (objects_in objects.now) (pair_lists lists.now)))) }
{
    let items = objects.items();
    let mut each = Vec::new(alloc);
    for place in 0..items.len() {
        let caps = all_caps(alloc, &items[place].sections, &lists[place])?;
        add_caps(&mut each, caps)?;
    }
    Ok(each)
}

/// The surfaces of objects as one mesh, with a part for each object and one cap for each group of contours that end
/// together: `ring_surface` of each object. Counts are sums over the objects. The fault is the first one that
/// `pairs_all` finds in the objects, or else `CapLimit` for the first group whose composite has more than
/// `MAX_COMPOSITE_VERTICES` vertices: by object, then by section, counted from 1 in its object, bottom before top, in
/// group order; or `NoMemory`. `Ok` raises the solver's count by the number of pairs, up to the counter's last value;
/// `NoMemory` by at most that; no other fault raises it. The number of workers stays.
pub fn ring_surface_all<P: PairSolver>(
    alloc: Global,
    objects: &Objects,
    solver: &mut P,
) -> Result<Built, Fault>
    ensures built { IfOk result (AreRingBuilt objects.now) }
    ensures valid { IfOk result (λ b. IsValid (surface_of b.mesh)) }
    // In each part every directed edge occurs as often as its reverse.
    ensures closed { IfOk result (λ b. All IsClosed (surface_of b.mesh).parts) }
    // For every point it has the six volumes of the surface with one cap for each contour.
    ensures volumes { IfOk result (λ b.
        (plain : Surface) → ArePlainSurfaces objects.now plain
        → (o : Point) → six_volume (surface_of b.mesh) o ≡ six_volume plain o) }
    ensures counted { IfOk result (λ b. P.solved_pairs solver.new ≡ raised_by b.pairs (P.solved_pairs solver.old)) }
    ensures not_less { P.solved_pairs solver.old ≤ P.solved_pairs solver.new }
    // The count rises at most by the number of the objects' pairs, for any result; and not at all if there is a fault.
    ensures not_more { (pss : List (List PairParts))
        → AreAllPairs objects.now pss
        → P.solved_pairs solver.new ≤ P.solved_pairs solver.old + length (numbered pss) }
    ensures unsolved { (fault : Fault) → IsRingFoundIn objects.now fault
        → P.solved_pairs solver.new ≡ P.solved_pairs solver.old }
    // A fault leaves the count, except `NoMemory`.
    ensures uncounted { IfErr result (OrNoMemory (λ _. P.solved_pairs solver.new ≡ P.solved_pairs solver.old)) }
    ensures same_workers { P.worker_count solver.new ≡ P.worker_count solver.old }
    ensures fault { IfErr result (IsAllRingFault objects.now) }
    ensures memory { IfErr result (IsLateMemoryIn objects.now) }
{
    let found = pairs_all(alloc, objects, &*solver)?;
    let caps = caps_of_each(alloc, objects, &found)?;
    let strips = all_strips(alloc, &found)?;
    let solved = solver.solve_each(alloc, &strips)?;
    let built = assemble_all::<ByGroup>(alloc, objects, &found, &solved, &caps)?;
    Ok(built)
}
