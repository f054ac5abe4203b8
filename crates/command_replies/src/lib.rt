//! What commands reply: the stages that they are made of, the objects in a text, and the pieces of printed texts.
#![tactic(auto)]

mod answers;
mod objects;
mod status;
mod text;

pub use answers::{Answer, AnswerText, RefusalLine, refusal_line, refused};
pub use objects::{numbered_pairs, objects_in, only_sections};
pub use status::Status;
pub use text::put_object;
