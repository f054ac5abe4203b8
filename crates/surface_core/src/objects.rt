//! The objects of a text: their pairs, and their surfaces as one mesh.
ghost use Rattle.std.specs.Prelude.{◌≡◌, ◌+◌, ◌≤◌, ◌++◌, ◌∷◌, [], List, All, IfOk, IfErr, OnOk, length, map};
ghost use Rattle.std.specs.List.{AllZip};
ghost use Rattle.plane_geom.specs.Rings.{IsClosed};
ghost use Rattle.strip_graph.specs.Strips.{IsStrip};
ghost use Rattle.triangle_meshes.specs.Meshes.{surface_of, IsValid};
ghost use Rattle.pair_pool.specs.Solvers.{SolvesEach, raised_by, referents};
ghost use Rattle.section_pairs.specs.Pairs.{PairParts};
ghost use Rattle.section_pairs.specs.SectionFaults.{ArePairs, OrNoMemory};
ghost use Rattle.surface_core.specs.Surfaces.{strips_in, by_contour, IsBuiltWith};
ghost use Rattle.surface_core.specs.Caps.{AreCapLists};
ghost use Rattle.surface_core.specs.Objects.{objects_in, sections_in, AreAllPairs, pair_lists, LieInGaps, numbered, IsFoundAmong, IsFoundIn, IsAllPairsFault, IsLateAmong, IsLateMemoryIn, surfaces_of, IsJoined, AreBuilt, AreBuiltBy, IsBounded};

use crate::capping::{ByContour, CapRule};
use crate::caps::all_caps;
use crate::surfaces::{Built, assemble_capped, strips};
use fku_types::limits::MAX_PAIRS;
use fku_types::{Fault, NoMemory};
use pair_pool::PairSolver;
use ring_polygons::CapList;
use row_paths::Solved;
use section_core::{Object, Objects};
use section_pairs::GapPair;
use std::alloc::Global;
use strip_graph::Pair;
use triangle_meshes::join_meshes;

// Appends the pairs of an object to those of others.
fn add_list(lists: &mut Vec<Vec<GapPair>>, pairs: Vec<GapPair>) -> Result<(), NoMemory>
    ensures { OnOk result (lists.new.items ≡ lists.old.items ++ pairs ∷ []) }
{
    lists.push(pairs)?;
    Ok(())
}

// The pairs of each of some objects, or the fault of the first object that has one.
fn pairs_of_each<P: PairSolver>(
    alloc: Global,
    items: &[Object],
    solver: &P,
) -> Result<Vec<Vec<GapPair>>, Fault>
    ensures pairs { IfOk result (λ v. AllZip ArePairs (sections_in items.now) (pair_lists v.items)) }
    ensures strips { IfOk result (λ v. All (λ ps. All (λ p. IsStrip p.pair) ps.items) v.items) }
    ensures gaps { IfOk result (λ v. AllZip LieInGaps (sections_in items.now) (pair_lists v.items)) }
    ensures fault { IfErr result (OrNoMemory (IsFoundAmong (sections_in items.now))) }
    ensures memory { IfErr result (IsLateAmong (sections_in items.now)) }
{
    let mut lists = Vec::new(alloc);
    for object in items {
        let found = solver.find_pairs(alloc, &object.sections)?;
        add_list(&mut lists, found)?;
    }
    Ok(lists)
}

/// The pairs of each object, from the solver; or the fault of the first object that has one. Gaps and sections are
/// counted in their object. `NoMemory` comes only if the contours of the first object are simple and apart. `Ok` comes
/// only for objects without a fault; they have at most `MAX_PAIRS` pairs together.
pub fn pairs_all<P: PairSolver>(
    alloc: Global,
    objects: &Objects,
    solver: &P,
) -> Result<Vec<Vec<GapPair>>, Fault>
    // One list for each object.
    ensures pairs { IfOk result (λ v. AreAllPairs objects.now (pair_lists v.items)) }
    ensures strips { IfOk result (λ v. All (λ ps. All (λ p. IsStrip p.pair) ps.items) v.items) }
    ensures gaps { IfOk result (λ v. AllZip LieInGaps (objects_in objects.now) (pair_lists v.items)) }
    ensures few { IfOk result (λ v. length (numbered (pair_lists v.items)) ≤ MAX_PAIRS) }
    ensures fault { IfErr result (IsAllPairsFault objects.now) }
    ensures memory { IfErr result (IsLateMemoryIn objects.now) }
{
    pairs_of_each(alloc, objects.items(), solver)
}

/// The strips of lists of pairs, list by list, as a solver takes them; or `NoMemory`.
pub fn all_strips<'a>(alloc: Global, lists: &'a [Vec<GapPair>]) -> Result<Vec<&'a Pair>, NoMemory>
    ensures { IfOk result (λ v. referents v.items ≡ strips_in (numbered (pair_lists lists.now))) }
{
    let mut all = Vec::new(alloc);
    for pairs in lists {
        let mut more = strips(alloc, pairs)?;
        all.append(&mut more)?;
    }
    Ok(all)
}

// The caps of each object.
fn caps_of_each(
    alloc: Global,
    objects: &Objects,
    lists: &[Vec<GapPair>],
) -> Result<Vec<Vec<CapList>>, NoMemory>
    requires { AreAllPairs objects.now (pair_lists lists.now) }
    ensures { IfOk result (λ v. AreCapLists by_contour (objects_in objects.now) (pair_lists lists.now) v.items) }
{
    let items = objects.items();
    let mut each = Vec::new(alloc);
    for place in 0..items.len() {
        each.push(all_caps(alloc, &items[place].sections, &lists[place])?)?;
    }
    Ok(each)
}

// The solutions of the pairs of objects, and meanwhile the caps of the objects.
fn solve_and_cap_each<P: PairSolver>(
    alloc: Global,
    objects: &Objects,
    lists: &[Vec<GapPair>],
    solver: &mut P,
) -> Result<(Vec<Solved>, Vec<Vec<CapList>>), NoMemory>
    requires { AreAllPairs objects.now (pair_lists lists.now) }
    ensures solved { IfOk result (λ r. SolvesEach (strips_in (numbered (pair_lists lists.now))) r.0.items) }
    ensures caps { IfOk result (λ r.
        AreCapLists by_contour (objects_in objects.now) (pair_lists lists.now) r.1.items) }
    ensures counted { OnOk result
        (P.solved_pairs solver.new
        ≡ raised_by (length (numbered (pair_lists lists.now))) (P.solved_pairs solver.old)) }
    ensures not_less { P.solved_pairs solver.old ≤ P.solved_pairs solver.new }
    ensures not_more { P.solved_pairs solver.new
        ≤ P.solved_pairs solver.old + length (numbered (pair_lists lists.now)) }
    ensures same_workers { P.worker_count solver.new ≡ P.worker_count solver.old }
{
    let strips = all_strips(alloc, lists)?;
    let (solved, caps) = solver.solve_beside(
        alloc,
        &strips,
        || -> Result<Vec<Vec<CapList>>, NoMemory>
            requires { AreAllPairs objects.now (pair_lists lists.now) }
            ensures { IfOk result (λ v.
                AreCapLists by_contour (objects_in objects.entry.now) (pair_lists lists.entry.now) v.items) }
        { caps_of_each(alloc, objects, lists) },
    );
    let solved = solved?;
    let caps = caps?;
    Ok((solved, caps))
}

// The surface of each of some objects, from these caps, its pairs and their solutions. The solutions of all objects
// follow one another in one list.
fn assemble_each<C: CapRule>(
    alloc: Global,
    items: &[Object],
    lists: &[Vec<GapPair>],
    solved: &[Solved],
    caps: &[Vec<CapList>],
) -> Result<Vec<Built>, NoMemory>
    requires pairs { AllZip ArePairs (sections_in items.now) (pair_lists lists.now) }
    requires solved { SolvesEach (strips_in (numbered (pair_lists lists.now))) solved.now }
    requires caps { AreCapLists C.capping (sections_in items.now) (pair_lists lists.now) caps.now }
    ensures built { IfOk result (λ v. AllZip (IsBuiltWith C.capping) (sections_in items.now) v.items) }
    ensures bounded { IfOk result (λ v. AllZip IsBounded (sections_in items.now) v.items) }
    ensures valid { IfOk result (λ v. All IsValid (surfaces_of v.items)) }
    ensures closed { IfOk result (λ v. All (λ s. All IsClosed s.parts) (surfaces_of v.items)) }
    ensures pairs { IfOk result (λ v. map (λ b. b.pairs) v.items ≡ map length (pair_lists lists.now)) }
{
    let mut each = Vec::new(alloc);
    let mut rest = solved;
    for place in 0..items.len() {
        let pairs = lists[place].as_slice();
        let (here, others) = rest.split_at(pairs.len());
        let sections = &items[place].sections;
        each.push(assemble_capped::<C>(alloc, sections, pairs, here, &caps[place])?)?;
        rest = others;
    }
    Ok(each)
}

// The surface of the only object is that of all.
fn only(each: Vec<Built>) -> Built
    requires one { length each.items ≡ 1 }
    requires valid { All IsValid (surfaces_of each.items) }
    requires closed { All (λ s. All IsClosed s.parts) (surfaces_of each.items) }
    ensures joined { IsJoined each.items result }
    ensures valid { IsValid (surface_of result.mesh) }
    ensures closed { All IsClosed (surface_of result.mesh).parts }
{
    let mut each = each;
    each.pop().unwrap()
}

// The surfaces of several objects as one.
fn join_several(alloc: Global, objects: &Objects, each: Vec<Built>) -> Result<Built, NoMemory>
    requires bounded { AllZip IsBounded (objects_in objects.now) each.items }
    requires valid { All IsValid (surfaces_of each.items) }
    requires closed { All (λ s. All IsClosed s.parts) (surfaces_of each.items) }
    ensures joined { IfOk result (IsJoined each.items) }
    ensures valid { IfOk result (λ b. IsValid (surface_of b.mesh)) }
    ensures closed { IfOk result (λ b. All IsClosed (surface_of b.mesh).parts) }
{
    let _items = objects.items();
    let mut meshes = Vec::with_capacity(alloc, each.len())?;
    let mut pairs = 0;
    let mut cost = 0;
    let mut folded = 0;
    for built in each {
        pairs += built.pairs;
        cost += built.cost;
        folded += built.folded;
        meshes.push(built.mesh)?;
    }
    let mesh = join_meshes(alloc, &meshes)?;
    Ok(Built {
        mesh,
        pairs,
        cost,
        folded,
    })
}

// The surfaces of a text's objects as one: a part for each object, in order, and the sums of the counts.
fn join_built(alloc: Global, objects: &Objects, each: Vec<Built>) -> Result<Built, NoMemory>
    requires bounded { AllZip IsBounded (objects_in objects.now) each.items }
    requires valid { All IsValid (surfaces_of each.items) }
    requires closed { All (λ s. All IsClosed s.parts) (surfaces_of each.items) }
    ensures joined { IfOk result (IsJoined each.items) }
    ensures valid { IfOk result (λ b. IsValid (surface_of b.mesh)) }
    ensures closed { IfOk result (λ b. All IsClosed (surface_of b.mesh).parts) }
{
    if each.len() == 1 {
        return Ok(only(each));
    }
    join_several(alloc, objects, each)
}

/// The surfaces of objects with these caps as one mesh, with a part for each object: from the pairs of each, the
/// solutions of all pairs, list by list, and the caps of each object; or `NoMemory`. Counts are sums over the objects.
pub fn assemble_all<C: CapRule>(
    alloc: Global,
    objects: &Objects,
    lists: &[Vec<GapPair>],
    solved: &[Solved],
    caps: &[Vec<CapList>],
) -> Result<Built, NoMemory>
    requires pairs { AreAllPairs objects.now (pair_lists lists.now) }
    requires solved { SolvesEach (strips_in (numbered (pair_lists lists.now))) solved.now }
    // There is one list for each section, and the caps close what the pairs leave open.
    requires caps { AreCapLists C.capping (objects_in objects.now) (pair_lists lists.now) caps.now }
    ensures built { IfOk result (AreBuiltBy (IsBuiltWith C.capping) objects.now) }
    ensures valid { IfOk result (λ b. IsValid (surface_of b.mesh)) }
    ensures closed { IfOk result (λ b. All IsClosed (surface_of b.mesh).parts) }
    ensures pairs { IfOk result (λ b. b.pairs ≡ length (numbered (pair_lists lists.now))) }
{
    let each = assemble_each::<C>(alloc, objects.items(), lists, solved, caps)?;
    let built = join_built(alloc, objects, each)?;
    Ok(built)
}

/// The surfaces of objects as one mesh, with a part for each object: each pair is joined by its chosen tiling. Counts
/// are sums over the objects. The fault is the first one that `pairs_all` finds, or `NoMemory`, as there. `Ok` raises
/// the solver's count by the number of pairs, up to the counter's last value; `NoMemory` by at most that; no other
/// fault raises it. The number of workers stays.
pub fn surface_all<P: PairSolver>(
    alloc: Global,
    objects: &Objects,
    solver: &mut P,
) -> Result<Built, Fault>
    ensures built { IfOk result (AreBuilt objects.now) }
    ensures valid { IfOk result (λ b. IsValid (surface_of b.mesh)) }
    // In each part every directed edge occurs as often as its reverse.
    ensures closed { IfOk result (λ b. All IsClosed (surface_of b.mesh).parts) }
    ensures counted { IfOk result (λ b. P.solved_pairs solver.new ≡ raised_by b.pairs (P.solved_pairs solver.old)) }
    ensures not_less { P.solved_pairs solver.old ≤ P.solved_pairs solver.new }
    // The count rises at most by the number of the objects' pairs, for any result; and not at all if they have a fault.
    ensures not_more { (pss : List (List PairParts))
        → AreAllPairs objects.now pss
        → P.solved_pairs solver.new ≤ P.solved_pairs solver.old + length (numbered pss) }
    ensures unsolved { (fault : Fault) → IsFoundIn objects.now fault
        → P.solved_pairs solver.new ≡ P.solved_pairs solver.old }
    // A fault leaves the count, except `NoMemory`.
    ensures uncounted { IfErr result (OrNoMemory (λ _. P.solved_pairs solver.new ≡ P.solved_pairs solver.old)) }
    ensures same_workers { P.worker_count solver.new ≡ P.worker_count solver.old }
    ensures fault { IfErr result (IsAllPairsFault objects.now) }
    ensures memory { IfErr result (IsLateMemoryIn objects.now) }
{
    let found = pairs_all(alloc, objects, &*solver)?;
    let (solved, caps) = solve_and_cap_each(alloc, objects, &found, solver)?;
    let built = assemble_all::<ByContour>(alloc, objects, &found, &solved, &caps)?;
    Ok(built)
}
