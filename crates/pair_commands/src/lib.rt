//! The commands on pairs: `tilings`, `certify`, `check` and `landmarks`.
#![tactic(auto)]

mod certifying;
mod check;
mod listing;
mod mark_lines;
mod marks;
mod one_pair;

pub use certifying::certify;
pub use check::verdict;
pub use listing::tilings;
pub use marks::landmarks;
