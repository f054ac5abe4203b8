//! The plain tables, and tilings worked by hand, compared with `solve` and `find_offsets`.
ghost use Rattle.std.specs.Prelude.{◌≡◌, ◌<◌, IsTrue};
ghost use Rattle.fku_types.specs.Points.{IsInRange};
ghost use Rattle.fku_types.specs.Rules.{IsWeighted};
ghost use Rattle.plane_geom.specs.Rings.{IsRing};

use crate::comparisons::same;
use crate::{Plain, solve_plainly};
use fku_types::{CostRule, NoMemory, Point, Steps};
use plane_geom::Ring;
use row_paths::{Solved, Workspace, find_offsets, solve, solve_with};
use std::alloc::Global;
use std::marker::Brand;
use std::process::Abort;
use std::sync::ledger::{Blank, Ledger};
use strip_graph::{Pair, Step};

/// A pair worked by hand: the rings' points, the height of the upper one, and the expected result of `solve`.
#[derive(Drop)]
struct Worked {
    low: &'static [(i32, i32)],
    high: &'static [(i32, i32)],
    height: i32,
    rule: CostRule,
    cost: i128,
    row: u32,
    word: &'static [Step],
}

const V: Step = Step::V;

const H: Step = Step::H;

const SQUARE: &[(i32, i32)] = &[(0, 0), (10, 0), (10, 10), (0, 10)];

const TURNED: &[(i32, i32)] = &[(10, 10), (0, 10), (0, 0), (10, 0)];

// The largest weights.
const HEAVY: CostRule = CostRule::Mix {
    span: 1000,
    area: 1000,
};

fn in_range(p: &Point) -> bool
    ensures { IsTrue result → IsInRange p.now }
{
    let (x, y, z) = (p.x.unsigned_abs(), p.y.unsigned_abs(), p.z.unsigned_abs());
    x <= 999999 && y <= 999999 && z <= 999999
}

fn is_ring(points: &[Point]) -> bool
    ensures { IsTrue result → IsRing points.now }
{
    for p in points {
        if !in_range(p) {
            return false;
        }
    }
    3 <= points.len() && points.len() <= 4096
}

fn is_weighted(rule: CostRule) -> bool
    ensures { IsTrue result → IsWeighted rule }
{
    match rule {
        CostRule::Span | CostRule::Area => true,
        CostRule::Mix { span, area } => span <= 1000 && area <= 1000 && (span > 0 || area > 0),
    }
}

fn ring(alloc: Global, corners: &[(i32, i32)], z: i32) -> Result<Ring, NoMemory> {
    let mut points = Vec::with_capacity(alloc, corners.len())?;
    let mut ids = Vec::with_capacity(alloc, corners.len())?;
    for (x, y) in corners {
        points.push(Point { x: *x, y: *y, z })?;
        ids.push(0)?;
    }
    Ok(Ring { points, ids })
}

fn pair_of(low: Ring, high: Ring, rule: CostRule) -> Option<Pair> {
    if is_ring(&low.points) && is_ring(&high.points) && is_weighted(rule) {
        Some(Pair::make(low, high, rule))
    } else {
        None
    }
}

// The corners and the height of two rings.
type Rings<'a> = (&'a [(i32, i32)], i32, &'a [(i32, i32)], i32);

fn pair<R: Abort>(rt: &R, alloc: Global, rings: Rings<'_>, rule: CostRule) -> Pair {
    let (low, low_height, high, high_height) = rings;
    let low = ring(alloc, low, low_height).expect(rt, "the lower ring");
    let high = ring(alloc, high, high_height).expect(rt, "the upper ring");
    pair_of(low, high, rule).expect(rt, "the rings are in range")
}

static WORKED: [Worked; 5] = [
    Worked {
        low: SQUARE,
        high: SQUARE,
        height: 10,
        rule: CostRule::Span,
        cost: 1200,
        row: 0,
        word: &[V, H, V, H, V, H, V, H],
    },
    Worked {
        low: SQUARE,
        high: TURNED,
        height: 10,
        rule: CostRule::Span,
        cost: 1200,
        row: 1,
        word: &[V, V, H, V, H, V, H, H],
    },
    Worked {
        low: SQUARE,
        high: SQUARE,
        height: 10,
        rule: CostRule::Mix { span: 2, area: 1 },
        cost: 82400,
        row: 0,
        word: &[V, H, V, H, V, H, V, H],
    },
    Worked {
        low: SQUARE,
        high: TURNED,
        height: 10,
        rule: CostRule::Mix { span: 7, area: 0 },
        cost: 8400,
        row: 1,
        word: &[V, V, H, V, H, V, H, H],
    },
    Worked {
        low: &[(0, 0), (600000, 0), (0, 600000)],
        high: &[
            (0, 0),
            (200000, 0),
            (600000, 0),
            (400000, 200000),
            (200000, 400000),
            (0, 600000),
            (0, 300000),
        ],
        height: 500000,
        rule: CostRule::Area,
        cost: 515000000000000000000000,
        row: 0,
        word: &[V, H, H, V, H, H, H, V, H, H],
    },
];

fn solve_by<L: Ledger>(alloc: Global, pair: &Pair, blank: Blank) -> Result<Solved, NoMemory>
    requires name { blank.name ≡ L.name }
    requires parts { blank.parts ≡ L.parts }
    requires some { 0 < L.parts }
{
    let mut steps = Steps::<L>::begin(blank);
    solve(alloc, pair, &mut steps)
}

fn solve_with_by<L: Ledger>(
    alloc: Global,
    pair: &Pair,
    workspace: &mut Workspace,
    blank: Blank,
) -> Result<Solved, NoMemory>
    requires name { blank.name ≡ L.name }
    requires parts { blank.parts ≡ L.parts }
    requires some { 0 < L.parts }
{
    let mut steps = Steps::<L>::begin(blank);
    solve_with(alloc, pair, workspace, &mut steps)
}

fn find_offsets_by<L: Ledger>(
    alloc: Global,
    pair: &Pair,
    blank: Blank,
) -> Result<Vec<i128>, NoMemory>
    requires name { blank.name ≡ L.name }
    requires parts { blank.parts ≡ L.parts }
    requires some { 0 < L.parts }
{
    let mut steps = Steps::<L>::begin(blank);
    find_offsets(alloc, pair, &mut steps)
}

fn solve_plainly_by<L: Ledger>(alloc: Global, pair: &Pair, blank: Blank) -> Result<Plain, NoMemory>
    requires name { blank.name ≡ L.name }
    requires parts { blank.parts ≡ L.parts }
    requires some { 0 < L.parts }
{
    let mut steps = Steps::<L>::begin(blank);
    solve_plainly(alloc, pair, &mut steps)
}

fn solved(alloc: Global, pair: &Pair) -> Result<Solved, NoMemory> {
    solve_by::<Brand>(alloc, pair, Blank::new(1))
}

fn solved_with(alloc: Global, pair: &Pair, workspace: &mut Workspace) -> Result<Solved, NoMemory> {
    solve_with_by::<Brand>(alloc, pair, workspace, Blank::new(1))
}

fn offsets_found(alloc: Global, pair: &Pair) -> Result<Vec<i128>, NoMemory> {
    find_offsets_by::<Brand>(alloc, pair, Blank::new(1))
}

fn plainly_solved(alloc: Global, pair: &Pair) -> Result<Plain, NoMemory> {
    solve_plainly_by::<Brand>(alloc, pair, Blank::new(1))
}

fn is_solved<R: Abort>(rt: &R, alloc: Global, worked: &Worked) {
    let rings = (worked.low, 0, worked.high, worked.height);
    let pair = pair(rt, alloc, rings, worked.rule);
    let solved = solved(alloc, &pair).expect(rt, "solved");
    let tiling = solved.tiling();
    same(rt, (solved.cost(), tiling.row), (worked.cost, worked.row));
    same(rt, tiling.word.as_slice(), worked.word);
}

#[test]
fn worked_pairs_are_solved(rt: HostRuntime) {
    for worked in &WORKED {
        is_solved(&rt, rt.alloc(), worked);
    }
}

fn agree(solved: &Solved, plain: &Plain) -> bool {
    let tiling = solved.tiling();
    tiling.row == plain.row
        && tiling.word.as_slice() == plain.word.as_slice()
        && solved.cost() == plain.cost
}

fn plain_tables_agree<R: Abort>(rt: &R, alloc: Global, pair: &Pair) -> bool {
    let solved = solved(alloc, pair).expect(rt, "solved");
    let offsets = offsets_found(alloc, pair).expect(rt, "offsets found");
    let plain = plainly_solved(alloc, pair).expect(rt, "plainly solved");
    agree(&solved, &plain) && offsets.as_slice() == plain.offsets.as_slice()
}

// The largest weights at the largest coordinates: all costs need 128 bits.
#[test]
fn the_largest_costs_are_summed(rt: HostRuntime) {
    let alloc = rt.alloc();
    let corner = 999_999;
    let near = [(-corner, -corner), (corner, -corner), (corner, corner)];
    let far = [(corner, corner), (-corner, corner), (-corner, -corner)];
    let pair = pair(&rt, alloc, (&near, -corner, &far, corner), HEAVY);
    same(&rt, plain_tables_agree(&rt, alloc, &pair), true);
}

#[test]
fn two_squares_have_these_offsets(rt: HostRuntime) {
    let alloc = rt.alloc();
    let pair = pair(&rt, alloc, (SQUARE, 0, SQUARE, 10), CostRule::Span);
    let offsets = offsets_found(alloc, &pair).expect(&rt, "offsets found");
    same(&rt, offsets.as_slice(), &[0, 200, 300, 500]);
}

#[test]
fn a_copy_has_the_tiling_and_the_cost(rt: HostRuntime) {
    let alloc = rt.alloc();
    let pair = pair(&rt, alloc, (SQUARE, 0, SQUARE, 10), CostRule::Span);
    let solved = solved(alloc, &pair).expect(&rt, "solved");
    let copied = solved.copy(alloc).expect(&rt, "copied");
    same(&rt, copied.cost(), 1200);
    let tiling = copied.into_tiling();
    same(&rt, tiling.word.as_slice(), &[V, H, V, H, V, H, V, H]);
}

// Numbers below `below`, one after another, from a seed.
fn next_number(seed: u32, below: u32) -> u32
    requires { 0 < below }
    ensures { result < below }
{
    (seed.wrapping_mul(1103515245).wrapping_add(12345) >> 16) % below
}

// A ring of points of a small lattice, many of them equal. Each third ring lies on a line.
fn lattice_ring(alloc: Global, count: u32, seed: u32, z: i32) -> Result<Ring, NoMemory> {
    let mut corners = Vec::new(alloc);
    for k in 0..count {
        let place = seed.wrapping_mul(31).wrapping_add(k.wrapping_mul(7));
        let x = next_number(place, 3) as i32;
        let y = if seed % 3 == 0 {
            0
        } else {
            next_number(place.wrapping_add(1000), 2) as i32
        };
        corners.push((x, y))?;
    }
    ring(alloc, &corners, z)
}

fn lattice_pair<R: Abort>(rt: &R, alloc: Global, seed: u32, rule: CostRule) -> Pair
    requires { seed < 60 }
{
    let low = lattice_ring(alloc, 3 + seed % 6, seed, 0).expect(rt, "the lower ring");
    let high = lattice_ring(alloc, 3 + seed % 5, seed + 100, 1).expect(rt, "the upper ring");
    pair_of(low, high, rule).expect(rt, "the rings are in range")
}

const RULES: [CostRule; 6] = [
    CostRule::Span,
    CostRule::Area,
    CostRule::Mix { span: 1, area: 0 },
    CostRule::Mix { span: 0, area: 1 },
    CostRule::Mix { span: 2, area: 1 },
    HEAVY,
];

#[test]
fn plain_tables_agree_where_costs_tie(rt: HostRuntime) {
    let alloc = rt.alloc();
    for seed in 0..60 {
        for rule in RULES {
            let pair = lattice_pair(&rt, alloc, seed, rule);
            let agree = plain_tables_agree(&rt, alloc, &pair);
            same(&rt, (seed, rule, agree), (seed, rule, true));
        }
    }
}

// A ring of points of a lattice of 1,000 by 1,000 places, which are `scale` apart.
fn scattered_ring(
    alloc: Global,
    count: u32,
    seed: u32,
    scale: i32,
    z: i32,
) -> Result<Ring, NoMemory> {
    let mut corners = Vec::new(alloc);
    for k in 0..count {
        let place = seed.wrapping_add(k.wrapping_mul(7));
        let x = next_number(place, 1000) as i32;
        let y = next_number(place.wrapping_add(1000), 1000) as i32;
        corners.push((x.wrapping_mul(scale), y.wrapping_mul(scale)))?;
    }
    ring(alloc, &corners, z)
}

// The numbers of points below and above, the scale, and the rule.
type Scattered = (u32, u32, i32, CostRule);

fn scattered_pair<R: Abort>(rt: &R, alloc: Global, scattered: Scattered) -> Pair {
    let (below, above, scale, rule) = scattered;
    let seed = above.saturating_add(100);
    let low = scattered_ring(alloc, below, below, scale, 0).expect(rt, "the lower ring");
    let high = scattered_ring(alloc, above, seed, scale, 1).expect(rt, "the upper ring");
    pair_of(low, high, rule).expect(rt, "the rings are in range")
}

fn agree_with_workspace<R: Abort>(
    rt: &R,
    alloc: Global,
    scattered: Scattered,
    workspace: &mut Workspace,
) {
    let pair = scattered_pair(rt, alloc, scattered);
    let plain = plainly_solved(alloc, &pair).expect(rt, "plainly solved");
    let anew = solved(alloc, &pair).expect(rt, "solved");
    let again = solved_with(alloc, &pair, workspace).expect(rt, "solved");
    let offsets = offsets_found(alloc, &pair).expect(rt, "offsets found");
    let agrees = (agree(&anew, &plain), agree(&again, &plain));
    same(rt, (scattered, agrees), (scattered, (true, true)));
    let same_offsets = offsets.as_slice() == plain.offsets.as_slice();
    same(rt, (scattered, same_offsets), (scattered, true));
}

static SCATTERED: [Scattered; 10] = [
    (40, 30, 1, CostRule::Span),
    (5, 3, 1, CostRule::Area),
    (3, 50, 1, CostRule::Area),
    (50, 3, 999, HEAVY),
    (4, 4, 999, HEAVY),
    (3, 60, 999, HEAVY),
    (60, 3, 1, CostRule::Span),
    (40, 30, 1, HEAVY),
    (3, 3, 1, CostRule::Span),
    (20, 20, 0, CostRule::Span),
];

// After larger and smaller pairs, narrower and wider ones, and pairs whose costs need 128 bits.
#[test]
fn a_workspace_is_used_again(rt: HostRuntime) {
    let alloc = rt.alloc();
    let mut workspace = Workspace::new(alloc);
    for scattered in &SCATTERED {
        agree_with_workspace(&rt, alloc, *scattered, &mut workspace);
    }
}
