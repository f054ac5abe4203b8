//! Certificates and verdicts.

use strip_graph::{Step, Tiling};

/// A certificate that a tiling of a pair is least: its cost, and a number for each span of the strip. No step raises
/// the number by more than the step's cost, and each turn round both rings raises it by the tiling's cost or more.
#[derive(Drop)]
pub struct Cert {
    /// How many points the lower ring has.
    pub rows: u32,
    /// How many points the upper ring has.
    pub cols: u32,
    /// The cost of the tiling.
    pub cost: i128,
    /// The tiling.
    pub tiling: Tiling,
    /// The numbers: `2 * rows` rows of `cols + 1`.
    pub pi: Vec<i128>,
}

/// A certificate with the number of its pair, counted from 1, as its text has it.
#[derive(Drop)]
pub struct CertText {
    /// The pair's number, 1 to `MAX_PAIRS`.
    pub pair: u32,
    /// The certificate.
    pub cert: Cert,
}

/// What is wrong with a certificate: after `Accept`, the first condition that fails, in this order.
#[derive(Clone, Copy, PartialEq, Eq, Debug)]
pub enum Verdict {
    /// All conditions hold.
    Accept,
    /// The rows or the columns are not the pair's, the count of numbers is not that of the strip's places, or a number
    /// or the cost is above `MAX_NUMBER` in absolute value.
    Size,
    /// The tiling does not start at a row of the pair, or its word does not go once round both rings.
    Word,
    /// The cost of the tiling is not the one that the certificate states.
    Cost,
    /// The step from this place, row 0 to 2m - 1 and column 0 to n, raises the number by more than it costs. It is the
    /// first such step: by row, then by column, V before H.
    Arc { row: u32, col: u32, step: Step },
    /// Once round both rings from this row, 0 to m - 1, and column 0 raises the number by less than the cost. It is the
    /// first such row.
    Turn { row: u32 },
}
