//! Sources and sinks of bytes; lines, words and integers of texts. Re-exports the types of `fku_types`.
#![tactic(auto)]

mod kept;
mod laws;
mod memory;
mod outside;
mod std_outside;
mod text;
mod words;
mod writing;

pub use fku_types::{
    CostRule, Fault, LimitName, LinkCause, Name, NoMemory, PairRule, Point, Spot, Steps, fault_line,
};
pub use kept::{KeptLine, is_kept, kept_line_at, line_count};
pub use laws::written_lines_are_read;
pub use memory::{MemSink, MemSource, SureSink, SureSource};
pub use outside::{Gave, InFault, OutFault, Sink, Source, Took, put_all, read_all};
pub use std_outside::{StdSink, StdSource};
pub use text::{LineSpan, Number, is_digit, line_at, read_number};
pub use words::{after_keyword, is_word, read_count, split_count, split_word};
pub use writing::{put, put_count, put_long, put_number};
