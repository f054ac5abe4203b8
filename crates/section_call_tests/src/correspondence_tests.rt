//! Links of sections, and components of gaps. `tools/tests/rows/tilings.rows` has more.
use crate::comparisons::{same, tell};
use crate::texts::{BRANCHING, sections_of};
use correspondence::{LinkTable, components, test_links};
use std::test::Fail;

const SKIPPING: &[u8] =
    b"SECTIONS 1\nCOST span\nPAIR links\nSECTION 0\nCONTOUR a 4\n0 0\n9 0\n9 9\n0 9\nSECTION 10\nSECTION 20\nCONTOUR c 4\n0 0\n9 0\n9 9\n0 9\nLINK a c\nEND\n";

#[test]
fn links_are_good_or_told(rt: HostRuntime) -> Result<(), Fail> {
    let branching = sections_of(rt.alloc(), BRANCHING)?;
    assert!(rt; test_links(rt.alloc(), &branching).is_ok());
    let skipping = sections_of(rt.alloc(), SKIPPING)?;
    let fault = test_links(rt.alloc(), &skipping).err();
    tell(&rt, fault, b"10 LINK a c NOT NEIGHBOURS")
}

#[test]
fn a_branch_is_one_component(rt: HostRuntime) -> Result<(), Fail> {
    let sections = sections_of(rt.alloc(), BRANCHING)?;
    if sections.sections().len() < 2 {
        return Err(Fail::from("no gap"));
    }
    let table = LinkTable::of(rt.alloc(), &sections)?;
    let found = components(rt.alloc(), &sections, &table, 0)?;
    let [one] = found.as_slice() else {
        return Err(Fail::from("there is one component"));
    };
    same(&rt, one.below.as_slice(), [0].as_slice());
    same(&rt, one.above.as_slice(), [0, 1].as_slice());
    Ok(())
}
