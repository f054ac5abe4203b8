//! The composite of three rings.
ghost use Rattle.std.specs.Prelude.{◌≡◌, [], ◌∷◌, IfOk};
ghost use Rattle.plane_geom.specs.RingViews.{IsContour};

use crate::comparisons::same;
use crate::rings::four_points;
use fku_types::NoMemory;
use plane_geom::Ring;
use ring_polygons::{ComposeFault, compose};
use std::alloc::Global;
use std::test::Fail;

fn three(alloc: Global, first: Ring, second: Ring, third: Ring) -> Result<Vec<Ring>, NoMemory>
    ensures { IfOk result (λ v. v.items ≡ first ∷ second ∷ third ∷ []) }
{
    Ok(vec![in alloc; first, second, third]?)
}

fn join_three(alloc: Global, first: Ring, second: Ring, third: Ring) -> Result<Ring, ComposeFault>
    requires first { IsContour first }
    requires second { IsContour second }
    requires third { IsContour third }
{
    let rings = three(alloc, first, second, third)?;
    compose(alloc, rings)
}

type Corners = [(i32, i32); 4];

const MIDDLE: Corners = [(0, 0), (10, 0), (10, 10), (0, 10)];

const LEFT: Corners = [(-20, 0), (-10, 0), (-10, 10), (-20, 10)];

const RIGHT: Corners = [(20, 0), (30, 0), (30, 10), (20, 10)];

fn right_then_left(alloc: Global) -> Result<Ring, ComposeFault> {
    let first = four_points(alloc, MIDDLE, [0, 1, 2, 3])?;
    let second = four_points(alloc, RIGHT, [8, 9, 10, 11])?;
    let third = four_points(alloc, LEFT, [4, 5, 6, 7])?;
    join_three(alloc, first, second, third)
}

#[test]
fn the_third_ring_is_joined_before_the_second(rt: HostRuntime) -> Result<(), Fail> {
    let whole = right_then_left(rt.alloc())?;
    let wanted = [0, 5, 6, 7, 4, 5, 0, 1, 8, 9, 10, 11, 8, 1, 2, 3];
    same(&rt, whole.ids.as_slice(), &wanted);
    Ok(())
}
