//! Kept lines: those that are neither empty nor comments.
ghost use Rattle.std.specs.Prelude.{◌≡◌, ◌<◌, ◌≤◌, ◌+◌, ◌^◌, ◌↔◌, [], drop, length, IsNone, IfSome};
ghost use Rattle.text_io.specs.Text.{lines, words, is_kept, kept_from, IsKeptLineAt};

use crate::text::{line_at, word_in};

/// A line that is neither empty nor a comment: its number, counted from 1 over all lines, and where it lies. Its bytes
/// go from `first` to before `end`, and the following line begins at `next`.
#[derive(Clone, Copy, Debug, PartialEq, Eq)]
pub struct KeptLine {
    pub number: u32,
    pub first: usize,
    pub end: usize,
    pub next: usize,
}

/// Whether a line is kept: it is neither empty nor a comment. Takes no memory.
pub fn is_kept(line: &[u8]) -> bool
    ensures { result ≡ is_kept (words line.now) }
{
    match word_in(line) {
        None => false,
        Some(first) => line[first] != b'#',
    }
}

/// The first kept line of a text from byte `at` on; none where only empty lines and comments follow. `passed` lines
/// come before that byte, so line numbers go on from there. Takes no memory.
pub fn kept_line_at(bytes: &[u8], at: usize, passed: u32) -> Option<KeptLine>
    requires at { at ≤ length bytes.now }
    requires few { passed + length bytes.now < 2 ^ 32 + at }
    ensures none { IsNone result ↔ (kept_from (passed + 1) (lines (drop at bytes.now)) ≡ []) }
    ensures found { IfSome result (λ l. IsKeptLineAt bytes.now at passed l.number l.first l.end l.next) }
{
    let mut from = at;
    let mut number = passed;
    while let Some(line) = line_at(bytes, from) {
        number += 1;
        if is_kept(&bytes[line.first..line.end]) {
            return Some(KeptLine {
                number,
                first: line.first,
                end: line.end,
                next: line.next,
            });
        }
        from = line.next;
    }
    None
}

/// How many lines a text has from a byte on. Takes no memory.
pub fn line_count(bytes: &[u8], at: usize) -> usize
    requires { at ≤ length bytes.now }
    ensures count { result ≡ length (lines (drop at bytes.now)) }
    ensures few { result + at ≤ length bytes.now }
{
    let mut from = at;
    let mut count = 0;
    while let Some(line) = line_at(bytes, from) {
        count += 1;
        from = line.next;
    }
    count
}
