//! The words of an edit's refusal.
ghost use Rattle.std.specs.Prelude.{◌≡◌, ◌≤◌, ◌+◌, ◌++◌, length, codes, decimal};
ghost use Rattle.std.specs.Option.{option_map};
ghost use Rattle.arrayvec.specs.ArrayVec.{array_vec_len};
ghost use Rattle.fku_types.specs.Fault.{limit_word};
ghost use Rattle.section_edits.specs.Words.{edit_fault_words};

use crate::edit::EditFault;
use fku_types::fault_lines::{FRONT_BYTES, at_height, put, put_name, put_number, words};
use fku_types::limits::MAX_NAME_BYTES;
use fku_types::{FaultLine, LimitName, Name, fault_line};

/// The words of an edit's refusal that follow `EDIT k REFUSED ` in an output; none for `NoMemory`.
/// Takes no memory.
pub fn edit_fault_line(fault: &EditFault) -> Option<FaultLine>
    ensures { option_map (λ v. v.items) result ≡ edit_fault_words fault.now }
{
    match fault {
        EditFault::EditForm => Some(words(b"13 EDIT FORM")),
        EditFault::NoContour { name } => Some(named(b"14 NO CONTOUR ", name)),
        EditFault::NoSection { z } => Some(at_height(b"19 NO SECTION ", *z)),
        EditFault::NoVertex { name, index } => Some(indexed(b"15 NO VERTEX ", name, *index)),
        EditFault::TooFew { name } => Some(named(b"16 TOO FEW ", name)),
        EditFault::NameTwice { name } => Some(named(b"3 NAME TWICE ", name)),
        EditFault::Limit { limit } => Some(limited(b"5 LIMIT ", *limit)),
        EditFault::Found { fault } => fault_line(fault),
        EditFault::NoMemory => None,
    }
}

fn named(before: &[u8], name: &Name) -> FaultLine
    requires { length before.now ≤ FRONT_BYTES }
    ensures bytes { result.items ≡ before.now ++ name.now }
    ensures len { array_vec_len result ≤ length before.now + MAX_NAME_BYTES }
{
    let mut line = words(before);
    put_name(&mut line, name);
    line
}

fn indexed(before: &[u8], name: &Name, index: u32) -> FaultLine
    requires { length before.now ≤ FRONT_BYTES }
    ensures { result.items ≡ before.now ++ name.now ++ codes " " ++ decimal index }
{
    let mut line = named(before, name);
    put(&mut line, b" ");
    put_number(&mut line, index);
    line
}

fn limited(before: &[u8], limit: LimitName) -> FaultLine
    requires { length before.now ≤ FRONT_BYTES }
    ensures { result.items ≡ before.now ++ limit_word limit }
{
    let mut line = words(before);
    put(&mut line, limit.word());
    line
}
