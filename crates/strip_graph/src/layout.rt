ghost use Rattle.std.specs.Prelude.{◌≡◌, ◌+◌, ◌*◌, ◌<◌, ◌≤◌, IfOk, IfSome, IsTrue, length, true};
ghost use Rattle.plane_geom.specs.Rings.{IsRing, around};
ghost use Rattle.strip_graph.specs.declared.tilings.Step.TheVariants.{V, H};
ghost use Rattle.strip_graph.specs.Strips.{step_cost_limit, IsStrip, arcs, rows, cols};
ghost use Rattle.strip_graph.specs.Edges.{IsEdge, IsLevel, AreEdges};
ghost use Rattle.strip_graph.specs.Layouts.{IsUnrolled, IsByPlace, is_by_span};

use crate::areas::Edge;
use crate::lengths::{around, h_cost, tile_area, v_cost};
use crate::pairs::Pair;
use fku_types::{CostRule, NoMemory, Point, Steps};
use std::alloc::Global;
use std::marker::Model;
use std::sync::ledger::Ledger;

/// A pair laid out for sweeps: the points of its rows 0 to 2m, and those of its columns 0 to n.
#[derive(Drop)]
pub struct Layout<'a> {
    pair: &'a Pair,
    low: Vec<Point>,
    high: Vec<Point>,
    // The edges of the upper ring, each from its end to its start, if both rings are level; else none.
    edges: Vec<Edge>,
}

impl<'a> Model for Layout<'a> {
    ghost use Rattle.strip_graph.specs.Strips.{Strip};

    ghost Value = { Strip };

    ghost view = { λ l. l.pair.now };

    ghost use Rattle.strip_graph.specs.Layouts.{IsLaidOut};

    ghost invariant = { λ l. IsLaidOut l.pair.now l.low.items l.high.items l.edges.items };
}

/// The steps that leave the spans of one row of a pair.
#[derive(Drop)]
pub struct RowSteps<'a> {
    pair: &'a Pair,
    row: u32,
    rule: CostRule,
    from: Point,
    to: Point,
    high: &'a [Point],
    // If both rings are level, the edge of this row and the edges of the columns.
    edge: Option<Edge>,
    edges: &'a [Edge],
}

impl<'a> Model for RowSteps<'a> {
    ghost use Rattle.strip_graph.specs.Layouts.{StripRow};

    ghost Value = { StripRow };

    ghost view = { λ r. record { strip = r.pair.now; row = r.row } };

    ghost use Rattle.strip_graph.specs.Layouts.{IsStripRow};

    ghost invariant = { λ r. IsStripRow r.pair.now r.row r.rule r.from r.to r.high.now r.edge r.edges.now };
}

// The first points round a ring.
fn unrolled(alloc: Global, ring: &[Point], count: usize) -> Result<Vec<Point>, NoMemory>
    requires { IsRing ring.now }
    ensures { IfOk result (λ v. IsUnrolled ring.now v.items count) }
{
    let mut points = Vec::with_capacity(alloc, count)?;
    for k in 0..count {
        points.push(around(ring, k))?;
    }
    Ok(points)
}

// Whether all points of a ring lie at one height.
fn is_level(ring: &[Point]) -> bool
    requires { IsRing ring.now }
    ensures { IsTrue result → IsLevel ring.now }
{
    let height = ring[0].z;
    for point in ring {
        if point.z != height {
            return false;
        }
    }
    true
}

// The edges of the upper ring, each from its end to its start, if both rings are level; else none.
fn level_edges(alloc: Global, low: &[Point], high: &[Point]) -> Result<Vec<Edge>, NoMemory>
    requires low { IsRing low.now }
    requires high { IsRing high.now }
    ensures { IfOk result (λ v. 0 < length v.items → AreEdges low.now high.now v.items) }
{
    if !is_level(low) || !is_level(high) {
        return Ok(Vec::new(alloc));
    }
    let height = around(low, 0).z;
    let mut edges = Vec::with_capacity(alloc, high.len())?;
    for k in 0..high.len() {
        edges.push(Edge::of(around(high, k + 1), around(high, k), height))?;
    }
    Ok(edges)
}

impl<'a> Layout<'a> {
    /// Lays out a pair; or `NoMemory`.
    pub fn of(alloc: Global, pair: &'a Pair) -> Result<Layout<'a>, NoMemory>
        ensures { IfOk result (λ l. l ≡ pair.now) }
    {
        let low = &pair.low().points;
        let high = &pair.high().points;
        Ok(Layout {
            pair,
            low: unrolled(alloc, low, 2 * low.len() + 1)?,
            high: unrolled(alloc, high, high.len() + 1)?,
            edges: level_edges(alloc, low, high)?,
        })
    }

    /// How many points the lower ring has: m.
    pub fn rows(&self) -> u32
        ensures value { result ≡ rows self.now }
        ensures ring { IsRing self.now.low }
        ensures strip { IsStrip self.now }
    {
        self.pair.low().points.len() as u32
    }

    /// How many points the upper ring has: n.
    pub fn cols(&self) -> u32
        ensures value { result ≡ cols self.now }
        ensures ring { IsRing self.now.high }
    {
        self.pair.high().points.len() as u32
    }

    /// Whether the rule alone shows that both steps to a place cost the same, as squared spans do. `false` leaves that
    /// open.
    pub fn is_by_place(&self) -> bool
        ensures by_place { result ≡ true → IsByPlace self.now }
        // It is true exactly for the rules that count no area.
        ensures rule { result ≡ is_by_span self.now.cost }
    {
        match self.pair.cost() {
            CostRule::Span => true,
            CostRule::Area => false,
            CostRule::Mix { area, .. } => area == 0,
        }
    }

    /// The steps that leave the spans of a row, 0 to 2m - 1.
    #[inline(always)]
    pub fn row(&self, row: u32) -> RowSteps<'_>
        requires { row < 2 * rows self.now }
        ensures strip { result.strip ≡ self.now }
        ensures row { result.row ≡ row }
    {
        let from = self.low[row as usize];
        let to = self.low[row as usize + 1];
        let edge = if self.edges.is_empty() {
            None
        } else {
            Some(Edge::of(from, to, self.high[0].z))
        };
        RowSteps {
            pair: self.pair,
            row,
            rule: self.pair.cost(),
            from,
            to,
            high: &self.high,
            edge,
            edges: &self.edges,
        }
    }
}

impl<'a> RowSteps<'a> {
    /// The row.
    pub fn row(&self) -> u32
        ensures { result ≡ self.now.row }
    {
        self.row
    }

    // The upper ring's edge from a column, if both rings are level.
    #[inline(always)]
    fn edge_from(&self, col: usize) -> Option<&Edge>
        requires { col < cols self.now.strip }
        ensures { IfSome result (λ e.
            IsEdge e.now (around self.now.strip.high (col + 1)) (around self.now.strip.high col)
            (around self.now.strip.low self.now.row).z) }
    {
        match self.edge {
            Some(_) => Some(&self.edges[col]),
            None => None,
        }
    }

    /// The cost of the step V from a column, 0 to n. Counts one step.
    #[inline(always)]
    pub fn v_cost<L: Ledger>(&self, col: u32, steps: &mut Steps<L>) -> u128
        requires { col ≤ cols self.now.strip }
        ensures value { result ≡ arcs self.now.strip self.now.row col V }
        ensures range { result < step_cost_limit }
        ensures count { steps.new ≡ steps.old + 1 }
    {
        let across = self.high[col as usize];
        steps.tick();
        v_cost(self.rule, self.from, self.to, across, self.edge.as_ref())
    }

    /// The cost of the step H from a column, 0 to n - 1. Counts one step.
    #[inline(always)]
    pub fn h_cost<L: Ledger>(&self, col: u32, steps: &mut Steps<L>) -> u128
        requires { col < cols self.now.strip }
        ensures value { result ≡ arcs self.now.strip self.now.row col H }
        ensures range { result < step_cost_limit }
        ensures count { steps.new ≡ steps.old + 1 }
    {
        let col = col as usize;
        steps.tick();
        let (from, to) = (self.high[col], self.high[col + 1]);
        // Under areas alone, most of a loop over the columns is this call; with the match here, the loop omits the
        // rest.
        match self.rule {
            CostRule::Area => {
                let edge = self.edge_from(col);
                tile_area(to, from, self.from, edge)
            }
            _ => {
                let edge = self.edge_from(col);
                h_cost(self.rule, from, to, self.from, edge)
            }
        }
    }
}
