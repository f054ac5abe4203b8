//! Laws on the definition of a run.
#![tactic(auto)]

mod laws;

pub use laws::{
    certificates_are_accepted, densified_texts_are_taken, edits_end_with_the_surface,
    no_crossings_leave_no_passing_edge, runs_have_one_text, surfaces_are_counted_closed,
    valid_inputs_are_taken, workers_change_no_text,
};
