//! Edits of contours: the lines that stand for them, the sections after them, why they are refused, and a session of
//! edits, which has a solution for each pair of its sections.
#![tactic(auto)]

mod changes;
mod contours;
mod edit;
mod editing;
mod laws;
mod lines;
mod plans;
mod session;
mod session_laws;
mod words;

pub use edit::{Edit, EditFault, Spots};
pub use editing::edited;
pub use laws::lines_have_one_edit;
pub use lines::read_edit;
pub use session::{Done, Session};
pub use session_laws::{edits_add_up, edits_are_one};
pub use words::edit_fault_line;
