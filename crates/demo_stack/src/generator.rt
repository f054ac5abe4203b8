//! The vertices of a stack, from the states of a linear congruential generator: a vertex lies on the ray from the
//! origin through its place on the border of a square, at a multiple of that place's distance that its state
//! determines.
ghost use Rattle.std.specs.Prelude.{◌≡◌, ℕ, ◌+◌, ◌*◌, ◌<◌, ◌≤◌, ◌^◌, map, pos, ◌*ℤ◌, unsigned_abs, IfOk, OnOk};
ghost use Rattle.std.specs.List.{range_with_len, AllByRecursion};
ghost use Rattle.section_core.specs.Views.{spot_of};
ghost use Rattle.demo_stack.specs.Demo.{next, state_after, radius, place, direction, demo_spot};

use fku_types::limits::MAX_DEMO_VERTICES;
use fku_types::{NoMemory, Point, Spot};
use std::alloc::Global;

const MULTIPLIER: u64 = 1_103_515_245;

const INCREMENT: u64 = 12_345;

const MODULUS: u64 = 2_147_483_648;

// The state after a state.
fn next(state: u32) -> u32
    requires { state < 2 ^ 31 }
    ensures next { result ≡ next state }
    ensures range { result < 2 ^ 31 }
{
    ((u64::from(state) * MULTIPLIER + INCREMENT) % MODULUS) as u32
}

// The multiple for a vertex of this state: 100 to 199.
fn radius(state: u32) -> i32
    ensures radius { result ≡ pos (radius state) }
    ensures range { unsigned_abs result ≤ 199 }
{
    100 + (state / 65536 % 100) as i32
}

// How far along the border the vertex of an index lies: the vertices share the border evenly.
fn place(index: u32, vertices: u32) -> u32
    requires index { index < vertices }
    requires few { vertices ≤ MAX_DEMO_VERTICES }
    ensures place { result ≡ place index vertices }
    ensures range { result < 8000 }
{
    8000 * index / vertices
}

// The spot at a place of the border.
fn direction(place: u32) -> Spot
    requires { place < 8000 }
    ensures spot { (result.x, result.y) ≡ direction place }
    ensures x { unsigned_abs result.x ≤ 1000 }
    ensures y { unsigned_abs result.y ≤ 1000 }
{
    let place = place as i32;
    if place < 2000 {
        Spot {
            x: 1000,
            y: place - 1000,
        }
    } else if place < 4000 {
        Spot {
            x: 3000 - place,
            y: 1000,
        }
    } else if place < 6000 {
        Spot {
            x: -1000,
            y: 5000 - place,
        }
    } else {
        Spot {
            x: place - 7000,
            y: -1000,
        }
    }
}

// A coordinate of the border, times `radius`.
fn drawn(radius: i32, direction: i32) -> i32
    requires radius { unsigned_abs radius ≤ 199 }
    requires direction { unsigned_abs direction ≤ 1000 }
    ensures { result ≡ radius *ℤ direction }
{
    radius * direction
}

// The vertex of an index at a height, from this state.
fn vertex(state: u32, index: u32, vertices: u32, z: i32) -> Point
    requires index { index < vertices }
    requires few { vertices ≤ MAX_DEMO_VERTICES }
    ensures spot { spot_of result ≡ demo_spot state vertices index }
    ensures level { result.z ≡ z }
{
    let radius = radius(state);
    let direction = direction(place(index, vertices));
    Point {
        x: drawn(radius, direction.x),
        y: drawn(radius, direction.y),
        z,
    }
}

/// The vertices of a contour at a height, in order; the state goes on by one step before each of them. Or `NoMemory`.
pub fn vertices_from(
    alloc: Global,
    state: &mut u32,
    vertices: u32,
    z: i32,
) -> Result<Vec<Point>, NoMemory>
    requires state { state.old < 2 ^ 31 }
    requires few { vertices ≤ MAX_DEMO_VERTICES }
    ensures spots { (seed n : ℕ) → state.old ≡ state_after seed n
        → IfOk result (λ points.
        map spot_of points.items
        ≡ map (λ t. demo_spot (state_after seed (n + t + 1)) vertices t) (range_with_len 0 vertices)) }
    ensures level { IfOk result (λ points. AllByRecursion (λ (p : Point). p.z ≡ z) points.items) }
    ensures state { (seed n : ℕ) → state.old ≡ state_after seed n
        → OnOk result (state.new ≡ state_after seed (n + vertices)) }
    ensures range { state.new < 2 ^ 31 }
{
    let mut points = Vec::with_capacity(alloc, vertices as usize)?;
    for index in 0..vertices {
        *state = next(*state);
        points.push(vertex(*state, index, vertices, z))?;
    }
    Ok(points)
}
