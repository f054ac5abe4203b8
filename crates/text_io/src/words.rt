//! The words of a line, one after another: bytes, and integers in a range.
ghost use Rattle.std.specs.Prelude.{◌≡◌, ◌∷◌, [], MatchOption, bytes_eq, ℕ};
ghost use Rattle.text_io.specs.Text.{words};
ghost use Rattle.text_io.specs.WordLists.{Line, IsCount, IsFirstCount};

use crate::text::{Number, blank_in, read_number, word_in};

/// The first word of a line and the part of the line after it; none where only blanks are left. Takes no memory.
pub fn split_word(line: &[u8]) -> Option<(&[u8], &[u8])>
    ensures { MatchOption result (words line.now ≡ []) (λ s. words line.now ≡ s.0.now ∷ words s.1.now) }
{
    let Some(skipped) = word_in(line) else {
        return None;
    };
    let (_, rest) = line.split_at(skipped);
    let length = blank_in(rest).unwrap_or(rest.len());
    Some(rest.split_at(length))
}

/// Whether a word is this keyword, byte for byte. Takes no memory.
pub fn is_word(word: &[u8], keyword: &[u8]) -> bool
    ensures { result ≡ bytes_eq word.now keyword.now }
{
    word == keyword
}

/// The part of a line after its first word, if that word is this keyword. Takes no memory.
pub fn after_keyword<'a>(line: &'a [u8], keyword: &[u8]) -> Option<&'a [u8]>
    ensures { MatchOption result ((more : Line) → words line.now ≡ keyword.now ∷ more → ⊥) (λ rest.
        words line.now ≡ keyword.now ∷ words rest.now) }
{
    let Some((word, rest)) = split_word(line) else {
        return None;
    };
    if is_word(word, keyword) {
        Some(rest)
    } else {
        None
    }
}

/// The integer that a word says, if it is one from `least` to `most`. Takes no memory.
pub fn read_count(word: &[u8], least: u32, most: u32) -> Option<u32>
    ensures { MatchOption result ((n : ℕ) → IsCount word.now least most n → ⊥) (IsCount word.now least most) }
{
    match read_number(word) {
        Some(Number::Value(value)) if i128::from(least) <= value && value <= i128::from(most) => {
            Some(value as u32)
        }
        _ => None,
    }
}

/// The integer that the first word of a line says, if it is one from `least` to `most`, and the part of the line after
/// it. Takes no memory.
pub fn split_count(line: &[u8], least: u32, most: u32) -> Option<(u32, &[u8])>
    ensures { MatchOption result ((n : ℕ) (more : Line) → IsFirstCount (words line.now) least most n more → ⊥) (λ s.
        IsFirstCount (words line.now) least most s.0 (words s.1.now)) }
{
    let Some((word, rest)) = split_word(line) else {
        return None;
    };
    match read_count(word, least, most) {
        Some(count) => Some((count, rest)),
        None => None,
    }
}
