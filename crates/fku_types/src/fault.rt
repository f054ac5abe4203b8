//! Faults, and the words of an output that report them.
ghost use Rattle.std.specs.Prelude.{◌≡◌, ◌≤◌, ◌++◌, length, codes, decimal};
ghost use Rattle.std.specs.Option.{option_map};
ghost use Rattle.fku_types.specs.Fault.{fault_words, limit_word, cause_words, mark_words};

use crate::fault_lines::{
    FRONT_BYTES, FaultLine, at_height, numbered, put, put_name, put_number, words,
};
use crate::memory::NoMemory;
use crate::name::Name;
use std::alloc::AllocError;

/// What a limit bounds.
#[derive(Clone, Copy, Debug, PartialEq, Eq)]
pub enum LimitName {
    Bytes,
    Sections,
    Contours,
    Vertices,
    SectionVertices,
    ContourVertices,
    Links,
    Edits,
    Objects,
}

impl LimitName {
    /// The name of the limit in an output, a short word.
    pub fn word(self) -> &'static [u8]
        ensures word { result.now ≡ limit_word self }
        ensures short { length result.now ≤ 16 }
    {
        match self {
            LimitName::Bytes => b"bytes",
            LimitName::Sections => b"sections",
            LimitName::Contours => b"contours",
            LimitName::Vertices => b"vertices",
            LimitName::SectionVertices => b"section_vertices",
            LimitName::ContourVertices => b"contour_vertices",
            LimitName::Links => b"links",
            LimitName::Edits => b"edits",
            LimitName::Objects => b"objects",
        }
    }
}

/// Why a link is refused.
#[derive(Clone, Copy, Debug, PartialEq, Eq)]
pub enum LinkCause {
    Unknown,
    NotNeighbours,
    DepthDiffers,
    Repeated,
}

/// Why an input is refused, or that memory ran out. Lines are counted from 1; line 0 means that no line of a text has
/// the fault. `docs/formats.md` says exactly when each refusal comes.
#[derive(Drop)]
pub enum Fault {
    Form {
        line: u32,
    },
    Range {
        line: u32,
    },
    NameTwice {
        line: u32,
    },
    NotRising {
        line: u32,
    },
    Limit {
        limit: LimitName,
        line: u32,
    },
    EndMissing,
    NoContours,
    SelfCrossing {
        name: Name,
        first: u32,
        second: u32,
    },
    Crossing {
        first: Name,
        second: Name,
    },
    Link {
        below: Name,
        above: Name,
        cause: LinkCause,
    },
    Composite {
        section: u32,
        count: u32,
    },
    CertForm {
        line: u32,
    },
    Outside {
        z: i32,
    },
    OnSection {
        z: i32,
    },
    NoPair {
        number: u32,
    },
    OneObject {
        objects: u32,
    },
    MarkForm {
        line: u32,
    },
    NoSpan {
        pair: u32,
        row: u32,
        col: u32,
    },
    MarkRepeated {
        pair: u32,
        row: u32,
        col: u32,
    },
    MarksCross {
        pair: u32,
        row: u32,
        col: u32,
    },
    CapLimit {
        section: u32,
        count: u32,
    },
    ByuForm {
        line: u32,
    },
    NoMemory,
}

impl From<NoMemory> for Fault {
    ghost use Rattle.fku_types.specs.declared.fault.Fault.TheVariants as fault;

    ghost from_gives = { λ _ f. f ≡ fault.NoMemory };

    fn from(_error: NoMemory) -> Fault {
        Fault::NoMemory
    }
}

impl From<AllocError> for Fault {
    ghost use Rattle.fku_types.specs.declared.fault.Fault.TheVariants as fault;

    ghost from_gives = { λ _ f. f ≡ fault.NoMemory };

    fn from(_error: AllocError) -> Fault {
        Fault::NoMemory
    }
}

/// The words of a fault that follow `REFUSED ` in an output; none for `NoMemory`. Takes no memory.
pub fn fault_line(fault: &Fault) -> Option<FaultLine>
    ensures { option_map (λ v. v.items) result ≡ fault_words fault.now }
{
    match fault {
        Fault::Form { line } => Some(numbered(b"1 FORM line ", *line)),
        Fault::Range { line } => Some(numbered(b"2 RANGE line ", *line)),
        Fault::NameTwice { line } => Some(numbered(b"3 NAME TWICE line ", *line)),
        Fault::NotRising { line } => Some(numbered(b"4 HEIGHT NOT RISING line ", *line)),
        Fault::Limit { limit, line } => Some(limited(*limit, *line)),
        Fault::EndMissing => Some(words(b"6 END MISSING")),
        Fault::NoContours => Some(words(b"7 NO CONTOURS")),
        Fault::SelfCrossing {
            name,
            first,
            second,
        } => Some(self_crossing(name, *first, *second)),
        Fault::Crossing { first, second } => Some(crossing(first, second)),
        Fault::Link {
            below,
            above,
            cause,
        } => Some(bad_link(below, above, *cause)),
        Fault::Composite { section, count } => {
            Some(counted(b"11 COMPOSITE LIMIT section ", *section, *count))
        }
        Fault::CertForm { line } => Some(numbered(b"12 CERT FORM line ", *line)),
        Fault::Outside { z } => Some(at_height(b"17 HEIGHT OUTSIDE ", *z)),
        Fault::OnSection { z } => Some(at_height(b"18 HEIGHT ON SECTION ", *z)),
        Fault::NoPair { number } => Some(numbered(b"20 NO PAIR ", *number)),
        Fault::OneObject { objects } => Some(numbered(b"21 ONE OBJECT ", *objects)),
        Fault::MarkForm { line } => Some(numbered(b"22 MARK FORM line ", *line)),
        Fault::NoSpan { pair, row, col } => Some(marked(b"23 NO SPAN ", *pair, *row, *col)),
        Fault::MarkRepeated { pair, row, col } => {
            Some(marked(b"24 MARK REPEATED ", *pair, *row, *col))
        }
        Fault::MarksCross { pair, row, col } => {
            Some(marked(b"25 MARKS CROSS ", *pair, *row, *col))
        }
        Fault::CapLimit { section, count } => {
            Some(counted(b"26 CAP LIMIT section ", *section, *count))
        }
        Fault::ByuForm { line } => Some(numbered(b"27 BYU FORM line ", *line)),
        Fault::NoMemory => None,
    }
}

fn limited(limit: LimitName, number: u32) -> FaultLine
    ensures { result.items ≡ codes "5 LIMIT " ++ limit_word limit ++ codes " line " ++ decimal number }
{
    let mut line = words(b"5 LIMIT ");
    put(&mut line, limit.word());
    put(&mut line, b" line ");
    put_number(&mut line, number);
    line
}

fn self_crossing(name: &Name, first: u32, second: u32) -> FaultLine
    ensures { result.items
        ≡ codes "8 SELF CROSSING " ++ name.now ++ codes " " ++ decimal first ++ codes " " ++ decimal second }
{
    let mut line = words(b"8 SELF CROSSING ");
    put_name(&mut line, name);
    put(&mut line, b" ");
    put_number(&mut line, first);
    put(&mut line, b" ");
    put_number(&mut line, second);
    line
}

fn crossing(first: &Name, second: &Name) -> FaultLine
    ensures { result.items ≡ codes "9 CROSSING " ++ first.now ++ codes " " ++ second.now }
{
    let mut line = words(b"9 CROSSING ");
    put_name(&mut line, first);
    put(&mut line, b" ");
    put_name(&mut line, second);
    line
}

fn bad_link(below: &Name, above: &Name, cause: LinkCause) -> FaultLine
    ensures { result.items ≡ codes "10 LINK " ++ below.now ++ codes " " ++ above.now ++ codes " " ++ cause_words cause }
{
    let mut line = words(b"10 LINK ");
    put_name(&mut line, below);
    put(&mut line, b" ");
    put_name(&mut line, above);
    put(&mut line, b" ");
    put(&mut line, cause_words(cause));
    line
}

fn counted(before: &[u8], section: u32, count: u32) -> FaultLine
    requires { length before.now ≤ FRONT_BYTES }
    ensures { result.items ≡ before.now ++ decimal section ++ codes " count " ++ decimal count }
{
    let mut line = numbered(before, section);
    put(&mut line, b" count ");
    put_number(&mut line, count);
    line
}

fn marked(before: &[u8], pair: u32, row: u32, col: u32) -> FaultLine
    requires { length before.now ≤ FRONT_BYTES }
    ensures { result.items ≡ before.now ++ mark_words pair row col }
{
    let mut line = numbered(before, pair);
    put(&mut line, b" ");
    put_number(&mut line, row);
    put(&mut line, b" ");
    put_number(&mut line, col);
    line
}

fn cause_words(cause: LinkCause) -> &'static [u8]
    ensures words { result.now ≡ cause_words cause }
    ensures short { length result.now ≤ 14 }
{
    match cause {
        LinkCause::Unknown => b"UNKNOWN",
        LinkCause::NotNeighbours => b"NOT NEIGHBOURS",
        LinkCause::DepthDiffers => b"DEPTH DIFFERS",
        LinkCause::Repeated => b"REPEATED",
    }
}
