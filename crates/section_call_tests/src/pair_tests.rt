//! The pairs of sections, and their faults.
ghost use Rattle.std.specs.Prelude.{◌≤◌, length};

use crate::comparisons::same;
use crate::texts::{BRANCHING, RINGS, sections_of};
use section_pairs::{GapPair, pairs, pairs_after};
use std::process::Abort;
use std::test::Fail;

// The gap of a pair, and the ids of its two rings.
type Rings<'a> = (u32, &'a [u32], &'a [u32]);

// Asserts that each pair lies in its gap, and that its rings have their ids.
fn expect_pairs<R: Abort>(rt: &R, found: &[GapPair], rows: &[Rings]) {
    same(rt, found.len(), rows.len());
    for (one, (gap, low, high)) in found.iter().zip(rows) {
        same(rt, one.gap, *gap);
        same(rt, one.pair.low().ids.as_slice(), *low);
        same(rt, one.pair.high().ids.as_slice(), *high);
    }
}

// The same for the pairs of a text.
fn expect<R: Abort + AllocGlobal>(rt: &R, text: &[u8], rows: &[Rings]) -> Result<(), Fail>
    requires { length text.now ≤ 1000 }
{
    let sections = sections_of(rt.alloc(), text)?;
    let found = pairs(rt.alloc(), &sections)
        .ok()
        .ok_or("the sections have pairs")?;
    expect_pairs(rt, &found, rows);
    Ok(())
}

const LINKED: &[u8] =
    b"SECTIONS 1\nCOST span\nPAIR links\nSECTION 0\nCONTOUR a 4\n0 0\n9 0\n9 9\n0 9\nSECTION 10\nCONTOUR b 4\n0 0\n9 0\n9 9\n0 9\nSECTION 20\nCONTOUR c 4\n0 0\n9 0\n9 9\n0 9\nLINK a b\nLINK b c\nEND\n";

// The same with a fifth vertex in the lowest square.
const LINKED_MORE: &[u8] =
    b"SECTIONS 1\nCOST span\nPAIR links\nSECTION 0\nCONTOUR a 5\n0 0\n9 0\n9 9\n5 9\n0 9\nSECTION 10\nCONTOUR b 4\n0 0\n9 0\n9 9\n0 9\nSECTION 20\nCONTOUR c 4\n0 0\n9 0\n9 9\n0 9\nLINK a b\nLINK b c\nEND\n";

#[test]
fn pairs_of_worked_texts(rt: HostRuntime) -> Result<(), Fail> {
    let parted = [4, 5, 8, 9, 10, 11, 8, 5, 6, 7];
    expect(&rt, BRANCHING, &[(0, &[0, 1, 2, 3], &parted)])?;
    let outer: Rings = (0, &[0, 1, 2, 3], &[8, 9, 10, 11]);
    let hole: Rings = (0, &[4, 7, 6, 5], &[12, 15, 14, 13]);
    expect(&rt, RINGS, &[outer, hole])
}

#[test]
fn known_pairs_stay_with_new_numbers(rt: HostRuntime) -> Result<(), Fail> {
    let old = sections_of(rt.alloc(), LINKED)?;
    let Ok(known) = pairs(rt.alloc(), &old) else {
        return Err(Fail::from("the sections have pairs"));
    };
    let sections = sections_of(rt.alloc(), LINKED_MORE)?;
    let Ok(found) = pairs_after(rt.alloc(), &old, &known, &sections) else {
        return Err(Fail::from("the other sections have pairs"));
    };
    let lower: Rings = (0, &[0, 1, 2, 3, 4], &[5, 6, 7, 8]);
    let upper: Rings = (1, &[5, 6, 7, 8], &[9, 10, 11, 12]);
    expect_pairs(&rt, &found, &[lower, upper]);
    Ok(())
}
