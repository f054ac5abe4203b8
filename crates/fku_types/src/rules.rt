//! The rules that a section text chooses.

/// What a step along a strip costs.
#[derive(Clone, Copy, Debug, PartialEq, Eq)]
pub enum CostRule {
    /// The squared length of the span that the step leads to.
    Span,
    /// The squared doubled area of the step's tile.
    Area,
    /// `span` times the cost by `Span` plus `area` times the cost by `Area`. Wherever a rule is used, each weight is 0
    /// to `MAX_WEIGHT` and not both are 0.
    Mix { span: u32, area: u32 },
}

/// How contours of neighbouring sections correspond.
#[derive(Clone, Copy, Debug, PartialEq, Eq)]
pub enum PairRule {
    /// Where they overlap, seen along z.
    Overlap,
    /// Where a link names them.
    Links,
}
