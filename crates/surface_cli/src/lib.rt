//! The commands of the program.
#![tactic(auto)]

mod arguments;
mod certify_command;
mod commands;
mod formats;
mod laws;
mod numbers;
mod reading;
mod replies;
mod top;
mod words;

pub use command_replies::Status;
pub use commands::Command;
pub use demo_stack::demo_sections;
pub use laws::commands_are_simple;
pub use top::{run, run_with};
pub use words::{Task, meaning_of};
