//! Texts that several tests read, and what they read as.
ghost use Rattle.std.specs.Prelude.{◌≤◌, length};

use section_core::{Objects, Sections};
use section_text::{parse, parse_objects};
use std::alloc::Global;
use std::test::Fail;

/// Two equal squares, one above the other.
pub const SQUARES: &[u8] =
    b"SECTIONS 1\nCOST span\nPAIR overlap\nSECTION 0\nCONTOUR a 4\n0 0\n10 0\n10 10\n0 10\nSECTION 10\nCONTOUR b 4\n0 0\n10 0\n10 10\n0 10\nEND\n";

/// Three equal squares, one above another.
pub const THREE_SQUARES: &[u8] =
    b"SECTIONS 1\nCOST span\nPAIR overlap\nSECTION 0\nCONTOUR a 4\n0 0\n10 0\n10 10\n0 10\nSECTION 10\nCONTOUR b 4\n0 0\n10 0\n10 10\n0 10\nSECTION 20\nCONTOUR c 4\n0 0\n10 0\n10 10\n0 10\nEND\n";

/// A rectangle under two squares.
pub const BRANCHING: &[u8] =
    b"SECTIONS 1\nCOST span\nPAIR overlap\nSECTION 0\nCONTOUR a 4\n0 0\n30 0\n30 10\n0 10\nSECTION 10\nCONTOUR b 4\n0 0\n10 0\n10 10\n0 10\nCONTOUR c 4\n20 0\n30 0\n30 10\n20 10\nEND\n";

/// Two squares with square holes, one above the other.
pub const RINGS: &[u8] =
    b"SECTIONS 1\nCOST span\nPAIR overlap\nSECTION 0\nCONTOUR o0 4\n0 0\n30 0\n30 30\n0 30\nCONTOUR h0 4\n10 10\n20 10\n20 20\n10 20\nSECTION 10\nCONTOUR o1 4\n0 0\n30 0\n30 30\n0 30\nCONTOUR h1 4\n10 10\n20 10\n20 20\n10 20\nEND\n";

/// A contour that crosses itself.
pub const SELF_CROSSING: &[u8] =
    b"SECTIONS 1\nCOST span\nPAIR overlap\nSECTION 0\nCONTOUR a 4\n0 0\n9 9\n9 0\n0 9\nEND\n";

pub fn sections_of(alloc: Global, text: &[u8]) -> Result<Sections, Fail>
    requires { length text.now ≤ 1000 }
{
    Ok(parse(alloc, text).ok().ok_or("the text has sections")?)
}

pub fn objects_of(alloc: Global, text: &[u8]) -> Result<Objects, Fail>
    requires { length text.now ≤ 100000 }
{
    let front = parse_objects(alloc, text)
        .ok()
        .ok_or("the text has objects")?;
    Ok(front.objects)
}
