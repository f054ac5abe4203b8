//! The caps of a ring. `tools/tests/test_ring_caps.py` has more groups.
use crate::comparisons::{same, tell};
use crate::texts::{SELF_CROSSING, sections_of};
use pair_pool::OneByOne;
use ring_caps::{cap_group, ring_surface};
use section_pairs::all_rings;
use std::process::Abort;
use std::test::Fail;

// A square with a square hole.
const RING: &[u8] =
    b"SECTIONS 1\nCOST span\nPAIR overlap\nSECTION 0\nCONTOUR o 4\n0 0\n30 0\n30 30\n0 30\nCONTOUR h 4\n10 10\n20 10\n20 20\n10 20\nEND\n";

// The triangles of the top cap of the ring.
const TOPS: [[u32; 3]; 8] = [
    [3, 0, 4],
    [3, 4, 7],
    [3, 7, 6],
    [5, 4, 0],
    [5, 0, 1],
    [6, 5, 1],
    [6, 1, 2],
    [6, 2, 3],
];

// Asserts that a part has a bottom cap, the top cap turned over, and this top cap.
pub fn expect_caps<R: Abort>(rt: &R, part: &[[u32; 3]], tops: &[[u32; 3]; 8]) {
    same(rt, part.len(), 16);
    for k in 0..8 {
        let [a, b, c] = tops[k];
        assert!(rt; part.get(k) == Some(&[a, c, b]));
        assert!(rt; part.get(k + 8) == Some(&[a, b, c]));
    }
}

#[test]
fn the_caps_of_a_ring(rt: HostRuntime) -> Result<(), Fail> {
    let sections = sections_of(rt.alloc(), RING)?;
    let built = ring_surface(rt.alloc(), &sections, &mut OneByOne::new()).ok();
    let built = built.ok_or("there is a surface")?;
    same(&rt, built.mesh.vertices.len(), 8);
    same(&rt, built.mesh.parts.len(), 1);
    let part = built.mesh.parts.first().ok_or("there is no part")?;
    expect_caps(&rt, part, &TOPS);
    Ok(())
}

#[test]
fn no_pair_is_solved_before_a_fault(rt: HostRuntime) -> Result<(), Fail> {
    let crossing = sections_of(rt.alloc(), SELF_CROSSING)?;
    let mut solver = OneByOne::new();
    let fault = ring_surface(rt.alloc(), &crossing, &mut solver).err();
    tell(&rt, fault, b"8 SELF CROSSING a 0 2")?;
    same(&rt, solver.solved_count(), 0);
    Ok(())
}

#[test]
fn the_cap_of_a_group(rt: HostRuntime) -> Result<(), Fail> {
    let sections = sections_of(rt.alloc(), RING)?;
    let mut all = all_rings(rt.alloc(), &sections).ok().ok_or("rings")?;
    if all.len() == 0 {
        return Err(Fail::from("there is no section"));
    }
    let rings = all.remove(0);
    if rings.len() == 0 {
        return Err(Fail::from("there is no ring"));
    }
    let list = cap_group(rt.alloc(), rings)
        .ok()
        .ok_or("the cap of the group")?;
    same(&rt, list.triangles.as_slice(), TOPS.as_slice());
    same(&rt, list.folded, 0);
    Ok(())
}
