//! The surface of named objects. `tools/tests/rows/objects.rows` has more.
ghost use Rattle.std.specs.Prelude.{IfOk};
ghost use Rattle.triangle_meshes.specs.Meshes.{surface_of, IsValid};

use crate::comparisons::{same, tell};
use crate::texts::objects_of;
use pair_pool::OneByOne;
use section_core::Objects;
use section_pairs::GapPair;
use std::alloc::Global;
use std::process::Abort;
use std::test::Fail;
use surface_core::{Built, all_strips, pairs_all, surface_all};
use triangle_meshes::balanced;

// Two equal squares, one above the other, and a square beside them that is an object of its own.
const TWO_OBJECTS: &[u8] =
    b"SECTIONS 2\nCOST span\nPAIR overlap\nOBJECT p\nSECTION 0\nCONTOUR a 4\n0 0\n10 0\n10 10\n0 10\nSECTION 10\nCONTOUR b 4\n0 0\n10 0\n10 10\n0 10\nOBJECT q\nSECTION 0\nCONTOUR c 4\n5 5\n15 5\n15 15\n5 15\nEND\n";

fn built(alloc: Global, objects: &Objects) -> Result<Built, Fail>
    ensures { IfOk result (λ b. IsValid (surface_of b.mesh)) }
{
    let mut solver = OneByOne::new();
    match surface_all(alloc, objects, &mut solver) {
        Ok(built) => Ok(built),
        Err(_) => Err(Fail::from("the objects have no surface")),
    }
}

// Asserts that a closed surface has this many vertices and parts, and these pairs, cost and folded caps.
fn expect_counts<R: Abort + AllocGlobal>(
    rt: &R,
    built: &Built,
    vertices: usize,
    parts: usize,
    counts: (u32, i128, u32),
) -> Result<(), Fail>
    requires { IsValid (surface_of built.now.mesh) }
{
    same(rt, built.mesh.vertices.len(), vertices);
    same(rt, built.mesh.parts.len(), parts);
    same(rt, (built.pairs, built.cost, built.folded), counts);
    assert!(rt; balanced(rt.alloc(), &built.mesh)?);
    Ok(())
}

// Asserts that the parts of a surface have this many triangles.
fn expect_sizes<R: Abort>(rt: &R, built: &Built, sizes: &[usize]) {
    same(rt, built.mesh.parts.len(), sizes.len());
    for (part, size) in built.mesh.parts.iter().zip(sizes) {
        same(rt, part.len(), *size);
    }
}

// Asserts that the last part of a surface has these triangles.
fn expect_last<R: Abort>(rt: &R, built: &Built, triangles: &[[u32; 3]]) -> Result<(), Fail> {
    let last = built.mesh.parts.last().ok_or("there is no part")?;
    same(rt, last.as_slice(), triangles);
    Ok(())
}

// Asserts that the first of two objects has the only pair.
fn expect_lists<R: Abort>(rt: &R, lists: &[Vec<GapPair>]) {
    same(rt, lists.len(), 2);
    same(rt, lists.first().map(|pairs| pairs.len()), Some(1));
    same(rt, lists.last().map(|pairs| pairs.len()), Some(0));
}

#[test]
fn each_object_has_its_own_pairs(rt: HostRuntime) -> Result<(), Fail> {
    let alloc = rt.alloc();
    let objects = objects_of(alloc, TWO_OBJECTS)?;
    let lists = pairs_all(alloc, &objects, &OneByOne::new())
        .ok()
        .ok_or("the objects have pairs")?;
    expect_lists(&rt, &lists);
    let strips = all_strips(alloc, &lists).ok().ok_or("no strips")?;
    same(&rt, strips.len(), 1);
    Ok(())
}

#[test]
fn each_object_is_a_part(rt: HostRuntime) -> Result<(), Fail> {
    let alloc = rt.alloc();
    let built = built(alloc, &objects_of(alloc, TWO_OBJECTS)?)?;
    expect_counts(&rt, &built, 12, 2, (1, 1200, 0))?;
    expect_sizes(&rt, &built, &[12, 4]);
    let square = [[11, 9, 8], [9, 11, 10], [11, 8, 9], [9, 10, 11]];
    expect_last(&rt, &built, &square)
}

// The second object crosses itself.
const CROSSED: &[u8] =
    b"SECTIONS 2\nCOST span\nPAIR overlap\nOBJECT p\nSECTION 0\nCONTOUR a 3\n0 0\n9 0\n9 9\nSECTION 1\nCONTOUR d 3\n0 0\n9 0\n9 9\nOBJECT q\nSECTION 0\nCONTOUR b 4\n0 0\n9 9\n9 0\n0 9\nEND\n";

#[test]
fn no_pair_is_solved_before_a_fault(rt: HostRuntime) -> Result<(), Fail> {
    let objects = objects_of(rt.alloc(), CROSSED)?;
    let mut solver = OneByOne::new();
    let fault = surface_all(rt.alloc(), &objects, &mut solver).err();
    tell(&rt, fault, b"8 SELF CROSSING b 0 2")?;
    same(&rt, solver.solved_count(), 0);
    Ok(())
}
