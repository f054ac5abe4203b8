//! The surface with caps of groups.
ghost use Rattle.std.specs.Prelude.{◌≡◌, ◌+◌, ◌≤◌, List, All, IfOk, IfErr, length};
ghost use Rattle.fku_types.specs.declared.points.Point.{Point};
ghost use Rattle.plane_geom.specs.Rings.{IsClosed};
ghost use Rattle.triangle_meshes.specs.Meshes.{Surface, surface_of, IsValid};
ghost use Rattle.triangle_meshes.specs.Volumes.{six_volume};
ghost use Rattle.pair_pool.specs.Solvers.{raised_by};
ghost use Rattle.section_pairs.specs.Pairs.{PairParts};
ghost use Rattle.section_pairs.specs.SectionFaults.{ArePairs, IsLateMemory, OrNoMemory};
ghost use Rattle.ring_caps.specs.RingSurfaces.{IsPlainSurface, IsRingBuilt, IsRingFound, IsRingFault};

use crate::caps::{ByGroup, all_caps};
use fku_types::Fault;
use pair_pool::PairSolver;
use section_core::Sections;
use std::alloc::Global;
use surface_core::{Built, assemble_capped, strips};

/// The surface of sections with one cap for each group of contours that end together: an outer contour and the holes
/// whose parent it is. Vertices, strips and costs are those of `surface_core::surface`; in place of the caps of
/// contours there are the caps of groups, in the file order of the contours that begin the groups. The fault is the
/// first one that `pairs` finds, or else `CapLimit` for the first group whose composite has more than
/// `MAX_COMPOSITE_VERTICES` vertices, by section, counted from 1, bottom before top, in group order; or `NoMemory`.
/// `Ok` raises the solver's count by the number of pairs, up to the counter's last value; `NoMemory` by at most that;
/// no other fault raises it. The number of workers stays.
pub fn ring_surface<P: PairSolver>(
    alloc: Global,
    sections: &Sections,
    solver: &mut P,
) -> Result<Built, Fault>
    ensures built { IfOk result (IsRingBuilt sections.now) }
    ensures valid { IfOk result (λ b. IsValid (surface_of b.mesh)) }
    // Every directed edge occurs as often as its reverse.
    ensures closed { IfOk result (λ b. All IsClosed (surface_of b.mesh).parts) }
    // For every point it has the six volumes of the surface with one cap for each contour.
    ensures volumes { IfOk result (λ b.
        (plain : Surface) → IsPlainSurface sections.now plain
        → (o : Point) → six_volume (surface_of b.mesh) o ≡ six_volume plain o) }
    ensures counted { IfOk result (λ b. P.solved_pairs solver.new ≡ raised_by b.pairs (P.solved_pairs solver.old)) }
    ensures not_less { P.solved_pairs solver.old ≤ P.solved_pairs solver.new }
    // The count rises at most by the number of the sections' pairs, for any result; and not at all if there is a fault.
    ensures not_more { (ps : List PairParts) → ArePairs sections.now ps
        → P.solved_pairs solver.new ≤ P.solved_pairs solver.old + length ps }
    ensures unsolved { (fault : Fault) → IsRingFound sections.now fault
        → P.solved_pairs solver.new ≡ P.solved_pairs solver.old }
    // A fault leaves the count, except `NoMemory`.
    ensures uncounted { IfErr result (OrNoMemory (λ _. P.solved_pairs solver.new ≡ P.solved_pairs solver.old)) }
    ensures same_workers { P.worker_count solver.new ≡ P.worker_count solver.old }
    ensures fault { IfErr result (IsRingFault sections.now) }
    ensures memory { IfErr result (IsLateMemory sections.now) }
{
    let found = solver.find_pairs(alloc, sections)?;
    let caps = all_caps(alloc, sections, &found)?;
    let strips = strips(alloc, &found)?;
    let solved = solver.solve_each(alloc, &strips)?;
    let built = assemble_capped::<ByGroup>(alloc, sections, &found, &solved, &caps)?;
    Ok(built)
}
