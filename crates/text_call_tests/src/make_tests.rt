//! Parts that are made or refused.
use crate::answers::same;
use fku_types::{CostRule, Fault, Name, PairRule, Point};
use section_core::{Contour, Link, Section, Sections, print};
use std::alloc::Global;
use std::process::Abort;
use std::test::Fail;

const SQUARES_TEXT: &[u8] =
    b"SECTIONS 1\nCOST mix 1000 1\nPAIR links\nSECTION 0\nCONTOUR a 4\n0 0\n10 0\n10 10\n0 10\nSECTION 10\nCONTOUR b 4\n0 0\n10 0\n10 10\n0 10\nLINK a b\nEND\n";

// A square at a height.
fn square(alloc: Global, name: &[u8], z: i32) -> Result<Section, Fail> {
    let name = Name::of(name).ok_or("it is a name")?;
    let corners = [
        Point { x: 0, y: 0, z },
        Point { x: 10, y: 0, z },
        Point { x: 10, y: 10, z },
        Point { x: 0, y: 10, z },
    ];
    let points = Vec::from_slice(alloc, &corners)?;
    let contours = vec![in alloc; Contour { name, points }]?;
    Ok(Section { z, contours })
}

fn links(alloc: Global) -> Result<Vec<Link>, Fail> {
    let below = Name::of(b"a").ok_or("it is a name")?;
    let above = Name::of(b"b").ok_or("it is a name")?;
    Ok(Link::copy_all(alloc, &[Link { below, above }])?)
}

// Copies of two linked squares, under a rule with weights.
fn squares(alloc: Global, z: i32) -> Result<Result<Sections, Fault>, Fail> {
    let lower = square(alloc, b"a", 0)?.copy(alloc)?;
    let sections = vec![in alloc; lower, square(alloc, b"b", z)?]?;
    let cost = CostRule::Mix {
        span: 1000,
        area: 1,
    };
    Ok(Sections::make(alloc, cost, PairRule::Links, sections, links(alloc)?))
}

fn are_printed<R: Abort + AllocGlobal>(rt: &R, made: &Sections) -> Result<(), Fail> {
    let copy = made.copy(rt.alloc())?;
    same(rt, print(rt.alloc(), &copy)?.as_slice(), SQUARES_TEXT);
    Ok(())
}

#[test]
fn parts_are_made_and_printed(rt: HostRuntime) -> Result<(), Fail> {
    let made = squares(rt.alloc(), 10)?.ok().ok_or("they are made")?;
    are_printed(&rt, &made)
}

#[test]
fn sections_at_one_height_are_refused(rt: HostRuntime) -> Result<(), Fail> {
    let fault = squares(rt.alloc(), 0)?.err().ok_or("they are refused")?;
    assert!(rt; matches!(fault, Fault::NotRising { line: 0 }));
    Ok(())
}
