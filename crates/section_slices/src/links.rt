//! The links of densified sections.
ghost use Rattle.std.specs.Prelude.{◌≡◌, ◌+◌, ◌++◌, ◌<◌, ◌≤◌, All, IfOk, OnOk, length, map};
ghost use Rattle.section_core.specs.Views.{link_parts};
ghost use Rattle.correspondence.specs.Outlines.{held_layer};
ghost use Rattle.correspondence.specs.Graphs.{mark, cell, table_of};
ghost use Rattle.correspondence.specs.Named.{IsLinkTableOf};
ghost use Rattle.section_pairs.specs.Pairs.{pair_parts};
ghost use Rattle.section_pairs.specs.SectionFaults.{ArePairs};
ghost use Rattle.section_slices.specs.Densified.{is_dense, link, pair_links, dense_links, row_links, marked_links, AreLinksOf};
ghost use Rattle.section_slices.specs.Marks.{dense_gaps, AreAllLinks, IsPairBetween};

use crate::middles::middle_name;
use correspondence::{LinkTable, agreement};
use fku_types::limits::MAX_PAIRS;
use fku_types::{Name, NoMemory};
use section_core::{Contour, Link, Section, Sections};
use section_pairs::GapPair;
use std::alloc::Global;

fn link(below: &Name, above: &Name) -> Link
    ensures { link_parts result ≡ link below.now above.now }
{
    let below = below.copy();
    let above = above.copy();
    Link { below, above }
}

// Adds the links of a pair: from its contour below to its middle contour, and from that to its contour above.
fn add_pair(
    low: &Section,
    high: &Section,
    pair: &GapPair,
    place: u32,
    links: &mut Vec<Link>,
) -> Result<(), NoMemory>
    requires within { IsPairBetween low.now high.now (pair_parts pair.now) }
    requires place { place < MAX_PAIRS }
    ensures { OnOk result
        (map link_parts links.new.items
        ≡ map link_parts links.old.items
        ++ pair_links (held_layer low.now) (held_layer high.now) (pair_parts pair.now) place) }
{
    let middle = middle_name(place);
    let below = &low.contours[pair.below[0] as usize];
    let above = &high.contours[pair.above[0] as usize];
    links.push(link(&below.name, &middle))?;
    links.push(link(&middle, &above.name))?;
    Ok(())
}

// The links of the pairs of a dense gap.
fn dense_links(
    alloc: Global,
    low: &Section,
    high: &Section,
    pairs: &[GapPair],
    gap: u32,
) -> Result<Vec<Link>, NoMemory>
    requires within { All (λ p. p.gap ≡ gap → IsPairBetween low.now high.now (pair_parts p)) pairs.now }
    requires few { length pairs.now ≤ MAX_PAIRS }
    ensures { IfOk result (λ v.
        map link_parts v.items
        ≡ dense_links (held_layer low.now) (held_layer high.now) (map pair_parts pairs.now) gap) }
{
    let mut links = Vec::new(alloc);
    for place in 0..pairs.len() {
        if pairs[place].gap == gap {
            add_pair(low, high, &pairs[place], place as u32, &mut links)?;
        }
    }
    Ok(links)
}

// Adds the links of a contour below to those above that a row marks.
fn add_row(
    low: &Contour,
    high: &[Contour],
    row: &[bool],
    links: &mut Vec<Link>,
) -> Result<(), NoMemory>
    requires { length row.now ≡ length high.now }
    ensures { OnOk result
        (map link_parts links.new.items
        ≡ map link_parts links.old.items ++ row_links low.now.name (map (λ c. c.name) high.now) (mark row.now)) }
{
    for j in 0..high.len() {
        if row[j] {
            links.push(link(&low.name, &high[j].name))?;
        }
    }
    Ok(())
}

// The links of the contours below and above that a table marks.
fn marked_links(
    alloc: Global,
    low: &Section,
    high: &Section,
    table: &[Vec<bool>],
) -> Result<Vec<Link>, NoMemory>
    requires rows { length table.now ≡ length low.now.contours.items }
    requires columns { All (λ v. length v.items ≡ length high.now.contours.items) table.now }
    ensures { IfOk result (λ v.
        map link_parts v.items
        ≡ marked_links (held_layer low.now) (held_layer high.now) (cell (table_of table.now))) }
{
    let lows = low.contours.as_slice();
    let highs = high.contours.as_slice();
    let mut links = Vec::new(alloc);
    for i in 0..lows.len() {
        add_row(&lows[i], highs, &table[i], &mut links)?;
    }
    Ok(links)
}

// The links of a gap.
fn gap_links(
    alloc: Global,
    sections: &Sections,
    table: &LinkTable,
    pairs: &[GapPair],
    gap: u32,
    marked: bool,
) -> Result<Vec<Link>, NoMemory>
    requires gap { gap + 1 < length sections.now.sections }
    requires table { IsLinkTableOf table.now sections.now.links }
    requires pairs { ArePairs sections.now (map pair_parts pairs.now) }
    requires few { length pairs.now ≤ MAX_PAIRS }
    requires dense { marked ≡ is_dense sections.now (map pair_parts pairs.now) gap }
    ensures { IfOk result (λ v. AreLinksOf sections.now (map pair_parts pairs.now) gap (map link_parts v.items)) }
{
    let all = sections.sections();
    let low = &all[gap as usize];
    let high = &all[gap as usize + 1];
    if marked {
        let linked = dense_links(alloc, low, high, pairs, gap)?;
        return Ok(linked);
    }
    let marks = agreement(alloc, sections.rule(), table, low, high)?;
    let links = marked_links(alloc, low, high, &marks)?;
    Ok(links)
}

/// The links of all gaps, gap by gap; or `NoMemory`.
pub fn all_links(
    alloc: Global,
    sections: &Sections,
    pairs: &[GapPair],
    dense: &[bool],
) -> Result<Vec<Link>, NoMemory>
    requires pairs { ArePairs sections.now (map pair_parts pairs.now) }
    requires few { length pairs.now ≤ MAX_PAIRS }
    requires dense { dense.now ≡ dense_gaps sections.now (map pair_parts pairs.now) }
    ensures { IfOk result (λ v. AreAllLinks sections.now (map pair_parts pairs.now) (map link_parts v.items)) }
{
    let table = LinkTable::of(alloc, sections)?;
    let mut links = Vec::new(alloc);
    let count = sections.sections().len();
    for above in 1..count {
        let marked = dense[above - 1];
        let mut more = gap_links(alloc, sections, &table, pairs, above as u32 - 1, marked)?;
        links.append(&mut more)?;
    }
    Ok(links)
}
