//! The section text: its parts and their laws, made and printed. `docs/formats.md` has the format.
#![tactic(auto)]

ghost use Rattle.section_core.specs.Reader.{ReaderIsRight, ReaderIsOnly};
ghost use Rattle.section_core.specs.MadeTexts.{TextsTellPartsFault};

mod making;
mod objects;
mod parts;
mod printing;
mod sections;
mod tally;

pub use objects::{Object, Objects, finished_objects};
pub use parts::{Contour, Draft, Head, Link, Section, Version};
pub use printing::{print, print_objects};
pub use sections::Sections;
pub use tally::{Tally, coordinate, fits_section, is_coordinate, mix, point_count};

/// A law: a reader that takes one line after another returns what the definition says of all the lines.
pub fn reader_is_right()
    ensures right { ReaderIsRight }
    ensures only { ReaderIsOnly }
{}

/// A law: take parts that can be written as lines (none with links under `Overlap`), with each point at the height of
/// its section. Every text of such lines has the fault that `Sections::make` reports for the parts, except for its
/// line.
pub fn texts_tell_the_fault_of_parts()
    ensures { TextsTellPartsFault }
{}
