//! Finding pairs as a batch.
ghost use Rattle.std.specs.Prelude.{◌+◌, ◌-◌, ◌<◌, ◌≤◌, All, IfOk, IfErr, length, map};
ghost use Rattle.section_core.specs.ValidSections.{section_of};
ghost use Rattle.correspondence.specs.Named.{IsLinkTableOf};
ghost use Rattle.strip_graph.specs.Strips.{IsStrip};
ghost use Rattle.section_pairs.specs.Pairs.{pair_parts};
ghost use Rattle.section_pairs.specs.Ranges.{AreFindings};
ghost use Rattle.section_pairs.specs.SectionFaults.{ArePairs, IsLateMemory, IsPairsFault};
ghost use Rattle.pair_pool.specs.Finding.{IsFoundAt};
ghost use Rattle.pair_pool.specs.Batches.{AreMade};

use crate::batch::Batch;
use crate::by_workers::made_by_workers;
use correspondence::LinkTable;
use fku_types::limits::MAX_PAIRS;
use fku_types::{Fault, NoMemory};
use section_core::Sections;
use section_pairs::{Findings, GapPair, concluded, find_part, merged, pairs};
use std::alloc::Global;
use std::slice;
use std::thread::Threads;

/// The findings of each section, and of the gap above it if there is one. The table has the names of the sections'
/// links; all workers read it.
#[derive(Drop)]
struct Finding<'a> {
    sections: &'a Sections,
    table: &'a LinkTable,
    ghost named: { IsLinkTableOf table.now sections.now.links },
}

// The places up to a number.
fn places_up_to(alloc: Global, count: usize) -> Result<Vec<usize>, NoMemory>
    ensures { IfOk result (λ v. All (λ place. place < count) v.items) }
{
    let mut places = Vec::with_capacity(alloc, count)?;
    for place in 0..count {
        places.push(place)?;
    }
    Ok(places)
}

impl<'a> Batch for Finding<'a> {
    ghost use Rattle.std.specs.Prelude.{length};
    ghost use Rattle.pair_pool.specs.Finding.{IsFoundAt};

    type Tools = ();

    type Made = Findings;

    ghost places = { λ s. length s.sections.now.sections };

    ghost is_right = { λ s k f. IsFoundAt s.sections.now k f };

    fn places(&self) -> usize {
        self.sections.sections().len()
    }

    fn order(&self, alloc: Global) -> Result<Vec<usize>, NoMemory> {
        places_up_to(alloc, self.places())
    }

    fn tools(&self, _alloc: Global) {}

    fn make(&self, alloc: Global, place: usize, _tools: &mut ()) -> Result<Findings, NoMemory> {
        let all = self.sections.sections();
        let end = (place + 1).min(all.len() - 1);
        let part = slice::from_ref(&all[place]);
        Ok(find_part(alloc, self.sections, self.table, part, place, end))
    }
}

// The findings of all sections and gaps, from those of each.
fn merge_all(alloc: Global, sections: &Sections, table: &LinkTable, each: Vec<Findings>) -> Findings
    requires table { IsLinkTableOf table.now sections.now.links }
    requires made { AreMade (length sections.now.sections) (IsFoundAt sections.now) each.items }
    ensures { AreFindings sections.now (map section_of sections.now.sections) 0 (length sections.now.sections - 1)
        result }
{
    let _all = sections.sections();
    let mut all = find_part(alloc, sections, table, &[], 0, 0);
    for found in each {
        all = merged(all, found);
    }
    all
}

// The findings of all sections and gaps, made by `workers` workers side by side.
fn found_by_workers<R: Threads>(
    rt: &R,
    alloc: Global,
    sections: &Sections,
    workers: u32,
) -> Result<Findings, NoMemory>
    ensures { IfOk result
        (AreFindings sections.now (map section_of sections.now.sections) 0 (length sections.now.sections - 1)) }
{
    let table = LinkTable::of(alloc, sections)?;
    let finding = Finding {
        sections,
        table: &table,
    };
    let each = made_by_workers(rt, alloc, &finding, workers)?;
    Ok(merge_all(alloc, sections, &table, each))
}

/// The same result as `pairs`, found by `workers` workers side by side. That call finds it if there is one worker, or
/// no memory for the workers' findings.
pub(crate) fn pairs_by_workers<R: Threads>(
    rt: &R,
    alloc: Global,
    sections: &Sections,
    workers: u32,
) -> Result<Vec<GapPair>, Fault>
    ensures pairs { IfOk result (λ v. ArePairs sections.now (map pair_parts v.items)) }
    ensures strips { IfOk result (λ v. All (λ p. IsStrip p.pair) v.items) }
    ensures gaps { IfOk result (λ v. All (λ p. p.gap + 1 < length sections.now.sections) v.items) }
    ensures few { IfOk result (λ v. length v.items ≤ MAX_PAIRS) }
    ensures fault { IfErr result (IsPairsFault sections.now) }
    ensures memory { IfErr result (IsLateMemory sections.now) }
{
    if workers <= 1 {
        return pairs(alloc, sections);
    }
    match found_by_workers(rt, alloc, sections, workers) {
        Ok(found) => concluded(alloc, sections, found),
        Err(NoMemory) => pairs(alloc, sections),
    }
}
