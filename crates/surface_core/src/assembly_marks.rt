//! Which contours of a section are in pairs.
ghost use Rattle.std.specs.Prelude.{◌≡◌, ◌<◌, All, IfOk, length, map};
ghost use Rattle.std.specs.List.{list_all};
ghost use Rattle.section_pairs.specs.Pairs.{pair_parts};
ghost use Rattle.surface_core.specs.Surfaces.{joins, joined_on};
ghost use Rattle.surface_core.specs.Marks.{Marks, AreSetAt};

use fku_types::NoMemory;
use ring_polygons::Face;
use section_pairs::GapPair;
use std::alloc::Global;

// Marks places.
fn mark(marks: &mut [bool], places: &[u32])
    requires { All (λ k. k < length marks.old) places.now }
    ensures { Marks marks.old marks.new places.now }
{
    for place in places {
        marks[*place as usize] = true;
    }
}

// Marks the contours of a section that a pair joins on one of its faces.
fn mark_joined(marks: &mut [bool], pair: &GapPair, section: u32, face: Face)
    requires { All (λ k. k < length marks.old) (joins face section (pair_parts pair.now)) }
    ensures { Marks marks.old marks.new (joins face section (pair_parts pair.now)) }
{
    match face {
        Face::Below => {
            if u64::from(pair.gap) + 1 == u64::from(section) {
                mark(marks, &pair.above);
            }
        }
        Face::Above => {
            if pair.gap == section {
                mark(marks, &pair.below);
            }
        }
    }
}

/// Which of the contours of a section, counted from 0, are in pairs of the gap on a face; or `NoMemory`. `count` is the
/// number of its contours.
pub fn marks_on(
    alloc: Global,
    pairs: &[GapPair],
    section: u32,
    face: Face,
    count: usize,
) -> Result<Vec<bool>, NoMemory>
    requires { All (λ k. k < count) (joined_on face (map pair_parts pairs.now) section) }
    ensures { IfOk result (λ v. AreSetAt v.items count (joined_on face (map pair_parts pairs.now) section)) }
{
    let mut marks = vec![in alloc; false; count]?;
    for pair in pairs {
        mark_joined(&mut marks, pair, section, face);
    }
    Ok(marks)
}

/// Whether all marks are set.
pub fn are_all_set(marks: &[bool]) -> bool
    ensures { result ≡ list_all (λ set. set) marks.now }
{
    marks.iter().all(|set| *set)
}
