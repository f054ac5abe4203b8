//! The reader of section texts, which `section_core` makes and prints. `docs/formats.md` has the format.
#![tactic(auto)]

mod body;
mod front;
mod head;
mod item;
mod line;
mod plain;
mod reading;
mod states;

pub use front::{Front, ObjectsFront, parse, parse_front, parse_objects};
// The types that texts are read as, and what makes and prints them.
pub use section_core::{Contour, Link, Object, Objects, Section, Sections, print, print_objects};
