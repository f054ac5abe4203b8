ghost use Rattle.std.specs.Prelude.{◌≡◌, ◌+◌, ◌*◌, ◌<◌, ◌≤◌, ◌^◌, IfSome};
ghost use Rattle.fku_types.specs.Points.{IsInRange};
ghost use Rattle.plane_geom.specs.Rings.{IsRing};
ghost use Rattle.plane_geom.specs.Rings.{around};
ghost use Rattle.plane_geom.specs.Lengths.{distance_square};
ghost use Rattle.fku_types.specs.Rules.{IsWeighted};
ghost use Rattle.strip_graph.specs.Edges.{IsEdge};
ghost use Rattle.strip_graph.specs.Strips.{area_square, rule_cost, v_cost, h_cost, step_cost_limit};

use crate::areas::{Edge, area_square};
use fku_types::limits::MAX_WEIGHT;
use fku_types::{CostRule, Point};
use plane_geom::distance_square;

// The point of a ring at an index that is counted round it.
pub(crate) fn around(points: &[Point], index: usize) -> Point
    requires { IsRing points.now }
    ensures value { result ≡ around points.now index }
    ensures range { IsInRange result }
{
    let count = points.len();
    if index < count {
        points[index]
    } else if index - count < count {
        points[index - count]
    } else {
        points[index % count]
    }
}

// The squared doubled area of a tile, from what is known of the edge from a to b.
#[inline(always)]
pub(crate) fn tile_area(a: Point, b: Point, c: Point, edge: Option<&Edge>) -> u128
    requires a { IsInRange a }
    requires b { IsInRange b }
    requires c { IsInRange c }
    requires edge { IfSome edge (λ e. IsEdge e.now a b c.z) }
    ensures value { result ≡ area_square a b c }
    ensures range { result ≤ 192 * 10 ^ 24 }
{
    match edge {
        Some(edge) => edge.area_square(c),
        None => area_square(a, b, c),
    }
}

// A weighted squared length.
fn weighted_span(weight: u32, p: Point, q: Point) -> u128
    requires p { IsInRange p }
    requires q { IsInRange q }
    requires weight { weight ≤ MAX_WEIGHT }
    ensures value { result ≡ weight * distance_square p q }
    ensures range { result ≤ 12 * 10 ^ 15 }
{
    if weight == 0 {
        return 0;
    }
    u128::from(u64::from(weight) * distance_square(p, q))
}

// A weighted squared doubled area.
#[inline(always)]
fn weighted_area(weight: u32, a: Point, b: Point, c: Point, edge: Option<&Edge>) -> u128
    requires a { IsInRange a }
    requires b { IsInRange b }
    requires c { IsInRange c }
    requires edge { IfSome edge (λ e. IsEdge e.now a b c.z) }
    requires weight { weight ≤ MAX_WEIGHT }
    ensures value { result ≡ weight * area_square a b c }
    ensures range { result ≤ 192 * 10 ^ 27 }
{
    if weight == 0 {
        return 0;
    }
    u128::from(weight) * tile_area(a, b, c, edge)
}

// The cost of a step that leads to the span from p to q and whose tile is a, b, c.
#[inline(always)]
fn tile_cost(
    rule: CostRule,
    p: Point,
    q: Point,
    a: Point,
    b: Point,
    c: Point,
    edge: Option<&Edge>,
) -> u128
    requires rule { IsWeighted rule }
    requires p { IsInRange p }
    requires q { IsInRange q }
    requires a { IsInRange a }
    requires b { IsInRange b }
    requires c { IsInRange c }
    requires edge { IfSome edge (λ e. IsEdge e.now a b c.z) }
    ensures value { result ≡ rule_cost rule (distance_square p q) (area_square a b c) }
    ensures range { result < step_cost_limit }
{
    match rule {
        CostRule::Span => u128::from(distance_square(p, q)),
        CostRule::Area => tile_area(a, b, c, edge),
        CostRule::Mix { span, area } => {
            weighted_span(span, p, q) + weighted_area(area, a, b, c, edge)
        }
    }
}

// The cost of the step V along an edge of the lower ring, from the upper end of its spans and what is known of the
// edge.
#[inline(always)]
pub(crate) fn v_cost(
    rule: CostRule,
    from: Point,
    to: Point,
    across: Point,
    edge: Option<&Edge>,
) -> u128
    requires rule { IsWeighted rule }
    requires from { IsInRange from }
    requires to { IsInRange to }
    requires across { IsInRange across }
    requires edge { IfSome edge (λ e. IsEdge e.now from to across.z) }
    ensures value { result ≡ v_cost rule from to across }
    ensures range { result < step_cost_limit }
{
    tile_cost(rule, to, across, from, to, across, edge)
}

// The cost of the step H along an edge of the upper ring, from the lower end of its spans and what is known of the edge
// that leads back.
#[inline(always)]
pub(crate) fn h_cost(
    rule: CostRule,
    from: Point,
    to: Point,
    across: Point,
    edge: Option<&Edge>,
) -> u128
    requires rule { IsWeighted rule }
    requires from { IsInRange from }
    requires to { IsInRange to }
    requires across { IsInRange across }
    requires edge { IfSome edge (λ e. IsEdge e.now to from across.z) }
    ensures value { result ≡ h_cost rule from to across }
    ensures range { result < step_cost_limit }
{
    tile_cost(rule, across, to, to, from, across, edge)
}
