//! Counts of the edges and triangles of meshes, and meshes one after another.
ghost use Rattle.std.specs.Prelude.{◌≤◌, length};
ghost use Rattle.triangle_meshes.specs.Meshes.{surface_of, IsValid};

use crate::answers::same;
use crate::solids::{CUBE, two_parts};
use fku_types::{NoMemory, Point};
use std::alloc::Global;
use std::process::Abort;
use std::test::Fail;
use triangle_meshes::{Mesh, edge_count, join_meshes, triangle_count};

// Three squares: one at height 0, and two at height 10 whose corners 5 and 8 are joined by a bridge.
const CORNERS: [Point; 12] = [
    Point { x: 0, y: 0, z: 0 },
    Point { x: 30, y: 0, z: 0 },
    Point { x: 30, y: 10, z: 0 },
    Point { x: 0, y: 10, z: 0 },
    Point { x: 0, y: 0, z: 10 },
    Point { x: 10, y: 0, z: 10 },
    Point {
        x: 10,
        y: 10,
        z: 10,
    },
    Point { x: 0, y: 10, z: 10 },
    Point { x: 20, y: 0, z: 10 },
    Point { x: 30, y: 0, z: 10 },
    Point {
        x: 30,
        y: 10,
        z: 10,
    },
    Point {
        x: 20,
        y: 10,
        z: 10,
    },
];

// The strip from the lower square to the two upper ones, and their caps.
const BRANCHING: [[u32; 3]; 20] = [
    [5, 4, 0],
    [0, 1, 5],
    [8, 5, 1],
    [9, 8, 1],
    [1, 2, 9],
    [10, 9, 2],
    [11, 10, 2],
    [8, 11, 2],
    [2, 3, 8],
    [5, 8, 3],
    [6, 5, 3],
    [7, 6, 3],
    [3, 0, 7],
    [4, 7, 0],
    [3, 1, 0],
    [1, 3, 2],
    [7, 4, 5],
    [5, 6, 7],
    [11, 8, 9],
    [9, 10, 11],
];

const SINGLE: [[u32; 3]; 1] = [[0, 1, 2]];

fn edges_are_counted<R: Abort>(rt: &R, surface: &Mesh)
    requires valid { IsValid (surface_of surface.now) }
    requires parts { 2 ≤ length (surface_of surface.now).parts }
{
    for (part, u, v, wanted) in [
        (0, 5, 8, 1),
        (0, 8, 5, 1),
        (0, 5, 9, 0),
        (1, 5, 8, 0),
        (1, 4, 0, 1),
    ] {
        let count = edge_count(surface, part, u, v);
        same(rt, (part, u, v, count), (part, u, v, wanted));
    }
    same(rt, triangle_count(surface), 32);
}

#[test]
fn a_bridge_is_passed_once_in_each_direction(rt: HostRuntime) -> Result<(), Fail> {
    let surface = two_parts(rt.alloc(), &CORNERS, &BRANCHING, &CUBE)?;
    edges_are_counted(&rt, &surface);
    Ok(())
}

fn single_triangles_joined(alloc: Global) -> Result<Mesh, NoMemory> {
    let first = two_parts(alloc, &CORNERS, &CUBE, &SINGLE)?;
    let second = two_parts(alloc, &CORNERS, &SINGLE, &CUBE)?;
    join_meshes(alloc, &[first, second])
}

fn part_at(mesh: &Mesh, place: usize) -> &[[u32; 3]] {
    match mesh.parts.get(place) {
        Some(part) => part,
        None => &[],
    }
}

fn stands_behind<R: Abort>(rt: &R, both: &Mesh) {
    same(rt, both.vertices.len(), 24);
    same(rt, both.vertices.get(23).copied(), Some(CORNERS[11]));
    same(rt, both.parts.len(), 4);
    same(rt, part_at(both, 0), &CUBE);
    same(rt, part_at(both, 1), &[[0, 1, 2]]);
    same(rt, part_at(both, 2), &[[12, 13, 14]]);
    same(rt, part_at(both, 3).get(11).copied(), Some([17, 18, 19]));
}

#[test]
fn meshes_stand_one_after_another(rt: HostRuntime) -> Result<(), Fail> {
    let both = single_triangles_joined(rt.alloc())?;
    stands_behind(&rt, &both);
    Ok(())
}
