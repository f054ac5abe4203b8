//! What each line of a certificate's text says, line by line.
ghost use Rattle.std.specs.Prelude.{◌≡◌, ℕ, ◌≤◌, List, map, IfOk, MatchOption, MatchBool};
ghost use Rattle.text_io.specs.Text.{words};
ghost use Rattle.text_io.specs.WordLists.{Matches};
ghost use Rattle.strip_graph.specs.Certificates.{IsModest};
ghost use Rattle.strip_graph.specs.declared.tilings.Step.{Step};
ghost use Rattle.std.specs.Prelude.{ℤ, pos};
ghost use Rattle.cert_checker.specs.CertTexts.{CertHead, IsHead, IsWord, IsValueRow, letter, head_line, word_line, row_line, certificate_end};
ghost use Rattle.cert_checker.specs.LineSteps.{IsValue, HasNumberAfter, NoneNamed, IsBetween, head_parts, PutsRow};

use fku_types::limits::{MAX_COMPOSITE_VERTICES, MAX_PAIRS, MAX_START_ROW, MAX_STEPS};
use std::alloc::{AllocError, Global};
use strip_graph::Step;
use text_io::{Number, after_keyword, read_number, split_count, split_word};

/// The first line of a certificate's text: a pair by its number, its rows and columns, the cost and the start row.
#[derive(Clone, Copy)]
pub struct Head {
    pub pair: u32,
    pub rows: u32,
    pub cols: u32,
    pub cost: i128,
    pub start: u32,
}

// The number that a word says, if it is at most `MAX_NUMBER` in absolute value.
fn value_of(word: &[u8]) -> Option<i128>
    ensures { MatchOption result ((z : ℤ) → IsValue word.now z → ⊥) (IsValue word.now) }
{
    match read_number(word) {
        Some(Number::Value(value)) => Some(value),
        _ => None,
    }
}

// The integer after a keyword, if it is in its range, and the part of the line after it.
fn count_behind<'a>(
    line: &'a [u8],
    keyword: &[u8],
    least: u32,
    most: u32,
) -> Option<(u32, &'a [u8])>
    ensures { MatchOption result (NoneNamed (IsBetween least most) (words line.now) keyword.now) (λ c.
        (least ≤ c.0)
        × (c.0 ≤ most)
        × HasNumberAfter (words line.now) keyword.now (pos c.0) (words c.1.now)) }
{
    let Some(rest) = after_keyword(line, keyword) else {
        return None;
    };
    split_count(rest, least, most)
}

// The number after a keyword, if it is at most `MAX_NUMBER` in absolute value, and the part of the line after it.
fn value_behind<'a>(line: &'a [u8], keyword: &[u8]) -> Option<(i128, &'a [u8])>
    ensures { MatchOption result (NoneNamed IsModest (words line.now) keyword.now) (λ v.
        IsModest v.0 × HasNumberAfter (words line.now) keyword.now v.0 (words v.1.now)) }
{
    let Some(rest) = after_keyword(line, keyword) else {
        return None;
    };
    let Some((word, rest)) = split_word(rest) else {
        return None;
    };
    match value_of(word) {
        Some(value) => Some((value, rest)),
        None => None,
    }
}

/// What the first line of a certificate's text says; none for any other line.
pub fn read_head(line: &[u8]) -> Option<Head>
    ensures { MatchOption result ((h : CertHead) → IsHead h → Matches (words line.now) (head_line h) → ⊥) (λ h.
        IsHead (head_parts h) × Matches (words line.now) (head_line (head_parts h))) }
{
    let Some((_, line)) = count_behind(line, b"CERT", 1, 1) else {
        return None;
    };
    let Some((pair, line)) = count_behind(line, b"PAIR", 1, MAX_PAIRS) else {
        return None;
    };
    let Some((rows, line)) = count_behind(line, b"ROWS", 3, MAX_COMPOSITE_VERTICES) else {
        return None;
    };
    let Some((cols, line)) = count_behind(line, b"COLS", 3, MAX_COMPOSITE_VERTICES) else {
        return None;
    };
    let Some((cost, line)) = value_behind(line, b"COST") else {
        return None;
    };
    let Some((start, line)) = count_behind(line, b"START", 0, MAX_START_ROW) else {
        return None;
    };
    match split_word(line) {
        Some(_) => None,
        None => Some(Head {
            pair,
            rows,
            cols,
            cost,
            start,
        }),
    }
}

fn step_of(byte: u8) -> Option<Step>
    ensures { MatchOption result ((s : Step) → letter s ≡ byte → ⊥) (λ s. letter s ≡ byte) }
{
    match byte {
        b'V' => Some(Step::V),
        b'H' => Some(Step::H),
        _ => None,
    }
}

// The steps of 1 to `MAX_STEPS` letters V and H; none for any other bytes.
fn steps_of(alloc: Global, letters: &[u8]) -> Result<Option<Vec<Step>>, AllocError>
    ensures { IfOk result (λ o.
        MatchOption o ((w : List Step) → IsWord w → letters.now ≡ map letter w → ⊥) (λ v.
        IsWord v.items × (letters.now ≡ map letter v.items))) }
{
    if letters.is_empty() || letters.len() > MAX_STEPS {
        return Ok(None);
    }
    let mut steps = Vec::with_capacity(alloc, letters.len())?;
    for byte in letters {
        let Some(step) = step_of(*byte) else {
            return Ok(None);
        };
        steps.push(step)?;
    }
    Ok(Some(steps))
}

/// The word of the second line; none for any other line.
pub fn read_word(alloc: Global, line: &[u8]) -> Result<Option<Vec<Step>>, AllocError>
    ensures { IfOk result (λ o.
        MatchOption o ((w : List Step) → IsWord w → Matches (words line.now) (word_line w) → ⊥) (λ v.
        IsWord v.items × Matches (words line.now) (word_line v.items))) }
{
    let Some(rest) = after_keyword(line, b"WORD") else {
        return Ok(None);
    };
    let Some((letters, rest)) = split_word(rest) else {
        return Ok(None);
    };
    match split_word(rest) {
        Some(_) => Ok(None),
        None => steps_of(alloc, letters),
    }
}

/// Appends the numbers of a row to others; or reports that the line is not a row of `width` numbers.
pub fn read_row(values: &mut Vec<i128>, line: &[u8], width: usize) -> Result<bool, AllocError>
    ensures { IfOk result (λ b.
        MatchBool b (PutsRow (words line.now) width values.old.items values.new.items)
        ((row : List ℤ) → IsValueRow width row → Matches (words line.now) (row_line row) → ⊥)) }
{
    let mut rest = line;
    for _done in 0..width {
        let Some((word, more)) = split_word(rest) else {
            return Ok(false);
        };
        let Some(value) = value_of(word) else {
            return Ok(false);
        };
        values.push(value)?;
        rest = more;
    }
    match split_word(rest) {
        Some(_) => Ok(false),
        None => Ok(true),
    }
}

/// Whether a line is the last one of a certificate's text.
pub fn is_end(line: &[u8]) -> bool
    ensures { MatchBool result (Matches (words line.now) certificate_end) (Matches (words line.now) certificate_end → ⊥) }
{
    match after_keyword(line, b"END") {
        Some(rest) => split_word(rest).is_none(),
        None => false,
    }
}
