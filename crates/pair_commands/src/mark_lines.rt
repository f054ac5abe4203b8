//! The lines of marks after the sections of a text.
ghost use Rattle.std.specs.Prelude.{◌≡◌, ◌+◌, ◌≤◌, [], ◌∷◌, ◌++◌, drop, length, All, IfOk, IfErr, OnOk, MatchOption};
ghost use Rattle.text_io.specs.Text.{lines, words, kept_from};
ghost use Rattle.section_pairs.specs.SectionFaults.{OrNoMemory};
ghost use Rattle.pair_commands.specs.Landmarks.{AreMarks, IsFormFault, SaysMark};

use fku_types::Fault;
use fku_types::limits::{MAX_INPUT_BYTES, MAX_MARKS};
use landmarks::Mark;
use std::alloc::{AllocError, Global};
use text_io::{after_keyword, kept_line_at, split_count, split_word};

/// A marked span, with the number of its pair, counted from 1.
#[derive(Clone, Copy)]
pub(crate) struct PairMark {
    pub pair: u32,
    pub mark: Mark,
}

// The mark that a line says.
fn mark_of(line: &[u8]) -> Option<PairMark>
    ensures { MatchOption result ((x : PairMark) → SaysMark (words line.now) x → ⊥) (SaysMark (words line.now)) }
{
    let Some(line) = after_keyword(line, b"MARK") else {
        return None;
    };
    let Some((pair, line)) = split_count(line, 1, u32::MAX) else {
        return None;
    };
    let Some((row, line)) = split_count(line, 0, u32::MAX) else {
        return None;
    };
    let Some((col, line)) = split_count(line, 0, u32::MAX) else {
        return None;
    };
    match split_word(line) {
        Some(_) => None,
        None => Some(PairMark {
            pair,
            mark: Mark { row, col },
        }),
    }
}

fn push(marks: &mut Vec<PairMark>, mark: PairMark) -> Result<(), AllocError>
    ensures { OnOk result (marks.new.items ≡ marks.old.items ++ mark ∷ []) }
{
    marks.push(mark)?;
    Ok(())
}

/// The marks of the kept lines of a text from a byte on, after so many lines; or the first line that says none.
pub(crate) fn marks_behind(
    alloc: Global,
    bytes: &[u8],
    at: usize,
    passed: u32,
) -> Result<Vec<PairMark>, Fault>
    requires at { at ≤ length bytes.now }
    requires short { length bytes.now ≤ MAX_INPUT_BYTES }
    requires passed { passed ≤ MAX_INPUT_BYTES }
    ensures marks { IfOk result (λ v. AreMarks (kept_from (passed + 1) (lines (drop at bytes.now))) v.items) }
    ensures few { IfOk result (λ v. length v.items ≤ MAX_MARKS) }
    ensures numbers { IfOk result (λ v. All (λ x. 1 ≤ x.pair) v.items) }
    ensures fault { IfErr result (OrNoMemory (IsFormFault (kept_from (passed + 1) (lines (drop at bytes.now))))) }
{
    let mut marks = Vec::new(alloc);
    let mut from = at;
    let mut number = passed;
    while let Some(line) = kept_line_at(bytes, from, number) {
        let Some(mark) = mark_of(&bytes[line.first..line.end]) else {
            return Err(Fault::MarkForm { line: line.number });
        };
        push(&mut marks, mark)?;
        from = line.next;
        number = line.number;
    }
    Ok(marks)
}
