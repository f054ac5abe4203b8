//! The whole mesh.
ghost use Rattle.std.specs.Prelude.{◌≡◌, ◌+◌, ◌≤◌, List, All, IfOk, IfErr, OnOk, length, map};
ghost use Rattle.plane_geom.specs.Planes.{signed_sum};
ghost use Rattle.plane_geom.specs.Rings.{IsClosed};
ghost use Rattle.triangle_meshes.specs.Meshes.{surface_of, IsValid};
ghost use Rattle.pair_pool.specs.Solvers.{SolvesEach, raised_by, referents};
ghost use Rattle.section_pairs.specs.Pairs.{PairParts, pair_parts};
ghost use Rattle.section_pairs.specs.SectionFaults.{ArePairs, IsFound, IsPairsFault, IsLateMemory, OrNoMemory};
ghost use Rattle.surface_core.specs.Surfaces.{strips_in, capped_folded, surface_folded, by_contour, IsSurface, IsSurfaceWith, IsBuilt, IsBuiltWith};
ghost use Rattle.surface_core.specs.Objects.{IsBounded};
ghost use Rattle.surface_core.specs.Caps.{AreCaps};

use crate::assembly::{all_points, all_triangles, total_cost};
use crate::capping::{ByContour, CapRule};
use crate::caps::all_caps;
use fku_types::{Fault, NoMemory};
use pair_pool::PairSolver;
use ring_polygons::CapList;
use row_paths::Solved;
use section_core::Sections;
use section_pairs::GapPair;
use std::alloc::Global;
use strip_graph::Pair;
use triangle_meshes::Mesh;

/// The surface of sections: the mesh, how many pairs it joins, the sum of their tilings' costs, and how many triangles
/// of its caps do not turn as their rings do.
#[derive(Drop)]
pub struct Built {
    pub mesh: Mesh,
    pub pairs: u32,
    pub cost: i128,
    pub folded: u32,
}

/// The surface of sections with these caps, from their pairs and the solution of each pair; or `NoMemory`. The vertices
/// are those of the sections in file order. The triangles are, for each section, its caps and then the tiles of the
/// pairs of the gap above.
pub fn assemble_capped<C: CapRule>(
    alloc: Global,
    sections: &Sections,
    pairs: &[GapPair],
    solved: &[Solved],
    caps: &[CapList],
) -> Result<Built, NoMemory>
    requires pairs { ArePairs sections.now (map pair_parts pairs.now) }
    requires solved { SolvesEach (strips_in (map pair_parts pairs.now)) solved.now }
    // There is one list for each section, and the caps close what the pairs leave open.
    requires caps { AreCaps C.capping sections.now (map pair_parts pairs.now) caps.now }
    ensures built { IfOk result (IsBuiltWith C.capping sections.now) }
    ensures surface { IfOk result (λ b.
        IsSurfaceWith C.capping sections.now (map pair_parts pairs.now) solved.now (surface_of b.mesh)) }
    ensures valid { IfOk result (λ b. IsValid (surface_of b.mesh)) }
    ensures closed { IfOk result (λ b. All IsClosed (surface_of b.mesh).parts) }
    ensures pairs { IfOk result (λ b. b.pairs ≡ length pairs.now) }
    ensures cost { IfOk result (λ b. b.cost ≡ signed_sum (λ x. x.cost) solved.now) }
    ensures folded { IfOk result (λ b.
        b.folded ≡ capped_folded C.capping sections.now (map pair_parts pairs.now)) }
    ensures bounded { IfOk result (IsBounded sections.now) }
{
    let vertices = all_points(alloc, sections.sections())?;
    let CapList { triangles, folded } = all_triangles::<C>(alloc, sections, pairs, solved, caps)?;
    let mut parts = Vec::new(alloc);
    parts.push(triangles)?;
    Ok(Built {
        mesh: Mesh { vertices, parts },
        pairs: pairs.len() as u32,
        cost: total_cost(pairs, solved),
        folded,
    })
}

/// The surface of sections, from their pairs and the solution of each pair; or `NoMemory`. The vertices are those of
/// the sections in file order. The triangles are, for each section, the bottom caps of its contours that are in no pair
/// of the gap below, the top caps of its contours that are in no pair of the gap above, and then the tiles of the pairs
/// of the gap above.
pub fn assemble(
    alloc: Global,
    sections: &Sections,
    pairs: &[GapPair],
    solved: &[Solved],
) -> Result<Built, NoMemory>
    // The pairs are those of the sections, and each is solved by the solution at its index.
    requires pairs { ArePairs sections.now (map pair_parts pairs.now) }
    requires solved { SolvesEach (strips_in (map pair_parts pairs.now)) solved.now }
    ensures built { IfOk result (IsBuilt sections.now) }
    ensures surface { IfOk result (λ b.
        IsSurface sections.now (map pair_parts pairs.now) solved.now (surface_of b.mesh)) }
    ensures valid { IfOk result (λ b. IsValid (surface_of b.mesh)) }
    // Every directed edge occurs as often as its reverse.
    ensures closed { IfOk result (λ b. All IsClosed (surface_of b.mesh).parts) }
    ensures pairs { IfOk result (λ b. b.pairs ≡ length pairs.now) }
    ensures cost { IfOk result (λ b. b.cost ≡ signed_sum (λ x. x.cost) solved.now) }
    ensures folded { IfOk result (λ b. b.folded ≡ surface_folded sections.now (map pair_parts pairs.now)) }
    // It is at most as large as the vertices and contours of the sections allow.
    ensures bounded { IfOk result (IsBounded sections.now) }
{
    let caps = all_caps(alloc, sections, pairs)?;
    assemble_capped::<ByContour>(alloc, sections, pairs, solved, &caps)
}

/// The strips of pairs, in order, as a solver takes them; or `NoMemory`.
pub fn strips<'a>(alloc: Global, pairs: &'a [GapPair]) -> Result<Vec<&'a Pair>, NoMemory>
    ensures { IfOk result (λ v. referents v.items ≡ strips_in (map pair_parts pairs.now)) }
{
    let mut strips = Vec::with_capacity(alloc, pairs.len())?;
    for pair in pairs {
        strips.push(&pair.pair)?;
    }
    Ok(strips)
}

// The solutions of the pairs of sections, and meanwhile the caps of the sections.
fn solve_and_cap<P: PairSolver>(
    alloc: Global,
    sections: &Sections,
    pairs: &[GapPair],
    solver: &mut P,
) -> Result<(Vec<Solved>, Vec<CapList>), NoMemory>
    requires { ArePairs sections.now (map pair_parts pairs.now) }
    ensures solved { IfOk result (λ r. SolvesEach (strips_in (map pair_parts pairs.now)) r.0.items) }
    ensures caps { IfOk result (λ r. AreCaps by_contour sections.now (map pair_parts pairs.now) r.1.items) }
    ensures counted { OnOk result (P.solved_pairs solver.new ≡ raised_by (length pairs.now) (P.solved_pairs solver.old)) }
    ensures not_less { P.solved_pairs solver.old ≤ P.solved_pairs solver.new }
    ensures not_more { P.solved_pairs solver.new ≤ P.solved_pairs solver.old + length pairs.now }
    ensures same_workers { P.worker_count solver.new ≡ P.worker_count solver.old }
{
    let strips = strips(alloc, pairs)?;
    let (solved, caps) = solver.solve_beside(
        alloc,
        &strips,
        || -> Result<Vec<CapList>, NoMemory>
            requires { ArePairs sections.now (map pair_parts pairs.now) }
            ensures { IfOk result (λ v. AreCaps by_contour sections.entry.now (map pair_parts pairs.entry.now) v.items) }
        { all_caps(alloc, sections, pairs) },
    );
    let solved = solved?;
    let caps = caps?;
    Ok((solved, caps))
}

/// The surface of sections: each pair is joined by its chosen tiling. The fault is the first one that `pairs` finds, or
/// `NoMemory`, as there. `Ok` raises the solver's count by the number of pairs, up to the counter's last value;
/// `NoMemory` by at most that; no other fault raises it. The number of workers stays.
pub fn surface<P: PairSolver>(
    alloc: Global,
    sections: &Sections,
    solver: &mut P,
) -> Result<Built, Fault>
    ensures built { IfOk result (IsBuilt sections.now) }
    ensures valid { IfOk result (λ b. IsValid (surface_of b.mesh)) }
    // Every directed edge occurs as often as its reverse.
    ensures closed { IfOk result (λ b. All IsClosed (surface_of b.mesh).parts) }
    ensures counted { IfOk result (λ b. P.solved_pairs solver.new ≡ raised_by b.pairs (P.solved_pairs solver.old)) }
    ensures not_less { P.solved_pairs solver.old ≤ P.solved_pairs solver.new }
    // The count rises at most by the number of the sections' pairs, for any result; and not at all if they have a
    // fault.
    ensures not_more { (ps : List PairParts) → ArePairs sections.now ps
        → P.solved_pairs solver.new ≤ P.solved_pairs solver.old + length ps }
    ensures unsolved { (fault : Fault) → IsFound sections.now fault
        → P.solved_pairs solver.new ≡ P.solved_pairs solver.old }
    // A fault leaves the count, except `NoMemory`.
    ensures uncounted { IfErr result (OrNoMemory (λ _. P.solved_pairs solver.new ≡ P.solved_pairs solver.old)) }
    ensures same_workers { P.worker_count solver.new ≡ P.worker_count solver.old }
    ensures fault { IfErr result (IsPairsFault sections.now) }
    ensures memory { IfErr result (IsLateMemory sections.now) }
{
    let found = solver.find_pairs(alloc, sections)?;
    let (solved, caps) = solve_and_cap(alloc, sections, &found, solver)?;
    let built = assemble_capped::<ByContour>(alloc, sections, &found, &solved, &caps)?;
    Ok(built)
}
