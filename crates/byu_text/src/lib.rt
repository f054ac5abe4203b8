//! The text of a mesh, in the layout of a MOVIE.BYU polygon file, written and read.
#![tactic(auto)]

mod coordinates;
mod fields;
mod head;
mod laws;
mod lines;
mod numbers;
mod points;
mod polygons;
mod read_fields;
mod reading;
mod reading_laws;
mod sizes;
mod texts;

pub use laws::{coordinates_have_one_text, numbers_have_one_text};
pub use reading::read_byu;
pub use reading_laws::{first_lines_tell_a_front, read_back, texts_have_one_reading};
pub use texts::write_byu;
