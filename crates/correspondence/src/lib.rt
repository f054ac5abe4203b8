//! Contours of a section: simple, apart, nested, turned; and which contours of neighbouring sections correspond and are
//! connected.
#![tactic(auto)]

mod apart;
mod blocks;
mod bounds;
mod contour_places;
mod correspondence_table;
mod gaps;
mod graph;
mod groups;
mod laws;
mod link_table;
mod linked_names;
mod links;
mod nesting;
mod overlaps;
mod simple;

pub use apart::{test_apart, touch};
pub use bounds::Bounds;
pub use correspondence_table::agreement;
pub use gaps::{Component, components};
pub use laws::{components_are_one, first_bad_link_is_one};
pub use link_table::LinkTable;
pub use links::test_links;
pub use nesting::{depths, is_within, lies_in, oriented};
pub use overlaps::overlap;
pub use simple::test_simple;
