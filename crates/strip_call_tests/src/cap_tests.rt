//! Caps of rings of four points.
ghost use Rattle.plane_geom.specs.RingViews.{IsContour};

use crate::comparisons::same;
use crate::rings::four_points;
use fku_types::NoMemory;
use plane_geom::Ring;
use ring_polygons::{CapList, Face, cap, cap_on};
use std::alloc::Global;
use std::process::Abort;
use std::test::Fail;

type Triangles = [[u32; 3]; 2];

struct Worked {
    corners: [(i32, i32); 4],
    ids: [u32; 4],
    top: Triangles,
    bottom: Triangles,
    folded: u32,
}

const WORKED: [Worked; 3] = [
    // the first corner is reflex
    Worked {
        corners: [(3, 1), (0, 0), (4, 0), (4, 4)],
        ids: [0, 1, 2, 3],
        top: [[0, 1, 2], [0, 2, 3]],
        bottom: [[0, 2, 1], [0, 3, 2]],
        folded: 0,
    },
    // a ring that crosses itself, and one on a line
    Worked {
        corners: [(0, 0), (2, 2), (2, 0), (0, 2)],
        ids: [0, 1, 2, 3],
        top: [[3, 0, 1], [1, 2, 3]],
        bottom: [[3, 1, 0], [1, 3, 2]],
        folded: 1,
    },
    Worked {
        corners: [(0, 0), (1, 0), (2, 0), (3, 0)],
        ids: [0, 1, 2, 3],
        top: [[3, 0, 1], [1, 2, 3]],
        bottom: [[3, 1, 0], [1, 3, 2]],
        folded: 2,
    },
];

fn compare<R: Abort>(
    rt: &R,
    case: &[(i32, i32)],
    list: &CapList,
    triangles: &[[u32; 3]],
    folded: u32,
) {
    same(rt, (case, list.triangles.as_slice()), (case, triangles));
    same(rt, (case, list.folded), (case, folded));
}

fn cap_of<R: Abort>(rt: &R, alloc: Global, ring: &Ring, worked: &Worked) -> Result<(), NoMemory>
    requires { IsContour ring.now }
{
    let list = cap(alloc, ring)?;
    compare(rt, &worked.corners, &list, &worked.top, worked.folded);
    Ok(())
}

fn caps_on_faces<R: Abort>(
    rt: &R,
    alloc: Global,
    ring: &Ring,
    worked: &Worked,
) -> Result<(), NoMemory>
    requires { IsContour ring.now }
{
    let list = cap_on(alloc, ring, Face::Above)?;
    compare(rt, &worked.corners, &list, &worked.top, worked.folded);
    let list = cap_on(alloc, ring, Face::Below)?;
    compare(rt, &worked.corners, &list, &worked.bottom, worked.folded);
    Ok(())
}

fn caps_of<R: Abort>(rt: &R, alloc: Global, worked: &Worked) -> Result<(), NoMemory> {
    let ring = four_points(alloc, worked.corners, worked.ids)?;
    cap_of(rt, alloc, &ring, worked)?;
    caps_on_faces(rt, alloc, &ring, worked)
}

#[test]
fn caps_of_four_points(rt: HostRuntime) -> Result<(), Fail> {
    let alloc = rt.alloc();
    for worked in &WORKED {
        caps_of(&rt, alloc, worked)?;
    }
    Ok(())
}
