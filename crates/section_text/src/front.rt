//! A text from its first line to its END line, and a whole text.
ghost use Rattle.std.specs.Prelude.{◌≡◌, ◌≤◌, length, IfOk, IfErr};
ghost use Rattle.text_io.specs.Text.{kept_lines};
ghost use Rattle.section_core.specs.Machine.{at_version, parts_of};
ghost use Rattle.section_core.specs.Laws.{facts};
ghost use Rattle.section_core.specs.Tallies.{Tallies};
ghost use Rattle.section_core.specs.Reader.{read_file, AnswerOf, HoldsFile, read_from, Answer, HoldsAnswer};
ghost use Rattle.section_text.specs.Fronts.{Parses, given, objects_given, IsFrontOf, IsFaultOf, IsObjectsFrontOf, IsObjectsFaultOf, IsObjectsFrontGiven, IsReadMemory};
ghost use Rattle.section_core.specs.Parts.{Parts, FileParts};
ghost use Rattle.section_core.specs.Accepted.{IsAccepted, IsAcceptedFile};
ghost use Rattle.section_core.specs.Canonical.{text_of, text_of_file};
ghost use Rattle.section_core.specs.declared.parts.Version.TheVariants as Version;
ghost use Rattle.section_core.specs.Texts.{IsTextOf};
ghost use Rattle.section_text.specs.Texts.{ReadsBack, ParsesText, IsTextFaultOf};

use crate::reading::take_line;
use crate::states::{State, ended_parts, is_ended};
use fku_types::Fault;
use fku_types::limits::MAX_CHECK_BYTES;
use section_core::{Objects, Sections, Tally, Version, finished_objects};
use std::alloc::Global;
use text_io::{is_kept, kept_line_at, line_at};

/// The front of a text: its objects, the number of its bytes up to and with its END line, and the number of that line,
/// counted from 1.
#[derive(Drop)]
pub struct ObjectsFront {
    pub objects: Objects,
    pub used: usize,
    pub lines: u32,
}

/// The front of a text of version 1: its sections, the number of its bytes up to and with its END line, and the number
/// of that line, counted from 1.
#[derive(Drop)]
pub struct Front {
    pub sections: Sections,
    pub used: usize,
    pub lines: u32,
}

/// The front of a text of version 1 of at most `MAX_CHECK_BYTES` bytes; anything may follow its END line. Else the
/// fault of the text's first line that has one; or `NoMemory`. `docs/formats.md` has the format and its faults.
pub fn parse_front(alloc: Global, bytes: &[u8]) -> Result<Front, Fault>
    requires { length bytes.now ≤ MAX_CHECK_BYTES }
    // The front reads as these parts.
    ensures found { IfOk result (IsFrontOf bytes.now) }
    // The text has this fault, or memory ran out.
    ensures fault { IfErr result (IsFaultOf bytes.now) }
    // A fault in the first four kept lines, or the end of the text before a fourth, is reported even if memory runs
    // out.
    ensures memory { IfErr result (IsReadMemory Version.One bytes.now) }
    // The result is what the definition says of the text, unless memory runs out.
    ensures exact { (answer : Answer) → HoldsAnswer (kept_lines bytes.now) answer
        → Parses bytes.now answer (given result) }
{
    read_one(alloc, bytes)
}

fn read_one(alloc: Global, bytes: &[u8]) -> Result<Front, Fault>
    requires { length bytes.now ≤ MAX_CHECK_BYTES }
    ensures parses { Parses bytes.now (read_from at_version (kept_lines bytes.now)) (given result) }
    ensures memory { IfErr result (IsReadMemory Version.One bytes.now) }
{
    match read_front(alloc, Version::One, bytes) {
        Err(fault) => Err(fault),
        Ok(front) => Ok(Front {
            sections: front.objects.into_only(),
            used: front.used,
            lines: front.lines,
        }),
    }
}

/// The objects of a text of version 1 or 2 of at most `MAX_CHECK_BYTES` bytes; anything may follow its END line. Else
/// the fault of the text's first line that has one, `EndMissing` if it has no END line, or `NoContours` if it has no
/// object or one without a contour; or `NoMemory`. `docs/formats.md` has the format and its faults.
pub fn parse_objects(alloc: Global, bytes: &[u8]) -> Result<ObjectsFront, Fault>
    requires { length bytes.now ≤ MAX_CHECK_BYTES }
    // The front reads as these objects.
    ensures found { IfOk result (IsObjectsFrontOf bytes.now) }
    // The text has this fault, or memory ran out.
    ensures fault { IfErr result (IsObjectsFaultOf bytes.now) }
    // A fault in the first four kept lines, or the end of the text before a fourth, is reported even if memory runs
    // out.
    ensures memory { IfErr result (IsReadMemory Version.Two bytes.now) }
    // The result is what the definition says of the text, unless memory runs out.
    ensures exact { (answer : AnswerOf FileParts) → HoldsFile Version.Two (kept_lines bytes.now) answer
        → Parses bytes.now answer (objects_given result) }
    // The canonical text of accepted objects is read as these objects, unless memory runs out.
    ensures printed { (F : FileParts) → IsAcceptedFile F → bytes.now ≡ text_of_file F → IsObjectsFrontGiven F result }
{
    read_front(alloc, Version::Two, bytes)
}

fn read_front(alloc: Global, latest: Version, bytes: &[u8]) -> Result<ObjectsFront, Fault>
    requires { length bytes.now ≤ MAX_CHECK_BYTES }
    ensures parses { Parses bytes.now (read_file latest at_version (kept_lines bytes.now)) (objects_given result) }
    ensures memory { IfErr result (IsReadMemory latest bytes.now) }
{
    let mut tally = Tally::new(alloc);
    read_lines(alloc, latest, bytes, &mut tally)
}

// Reads lines up to END; the tally is empty before.
fn read_lines(
    alloc: Global,
    latest: Version,
    bytes: &[u8],
    tally: &mut Tally,
) -> Result<ObjectsFront, Fault>
    requires few { length bytes.now ≤ MAX_CHECK_BYTES }
    requires none { Tallies tally.old (facts (parts_of at_version)) }
    ensures parses { Parses bytes.now (read_file latest at_version (kept_lines bytes.now)) (objects_given result) }
    ensures memory { IfErr result (IsReadMemory latest bytes.now) }
{
    let mut state = State::AtVersion;
    let mut at = 0;
    let mut count = 0u32;
    while let Some(span) = line_at(bytes, at) {
        count += 1;
        at = span.next;
        let line = &bytes[span.first..span.end];
        if is_kept(line) {
            take_line(alloc, latest, &mut state, line, tally, count)?;
            if is_ended(&state) {
                let (version, head, drafts) = ended_parts(&mut state).unwrap();
                let objects = finished_objects(alloc, version, head, drafts)?;
                let (used, lines) = (at, count);
                return Ok(ObjectsFront {
                    objects,
                    used,
                    lines,
                });
            }
        }
    }
    Err(Fault::EndMissing)
}

/// The sections of a text with only empty lines and comments after its END line. Else the fault that `parse_front`
/// returns, or `Form` with the number of the first other line after END; or `NoMemory`.
pub fn parse(alloc: Global, bytes: &[u8]) -> Result<Sections, Fault>
    requires { length bytes.now ≤ MAX_CHECK_BYTES }
    // The text reads as these parts.
    ensures found { IfOk result (IsTextOf bytes.now) }
    // The text has this fault, or memory ran out.
    ensures fault { IfErr result (IsTextFaultOf bytes.now) }
    // A fault in the first four kept lines, or the end of the text before a fourth, is reported even if memory runs
    // out.
    ensures memory { IfErr result (IsReadMemory Version.One bytes.now) }
    // The result is what the definition says of the text, unless memory runs out.
    ensures exact { (answer : Answer) → HoldsAnswer (kept_lines bytes.now) answer → ParsesText answer result }
    // The canonical text of accepted parts is read as these parts, unless memory runs out.
    ensures printed { (S : Parts) → IsAccepted S → bytes.now ≡ text_of S → ReadsBack S result }
{
    match parse_front(alloc, bytes) {
        Err(fault) => Err(fault),
        Ok(front) => match kept_line_at(bytes, front.used, front.lines) {
            Some(tail) => Err(Fault::Form { line: tail.number }),
            None => Ok(front.sections),
        },
    }
}
