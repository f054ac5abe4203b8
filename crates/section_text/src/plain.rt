//! A point as it is usually written: two short numbers with one blank between them.
ghost use Rattle.std.specs.Prelude.{◌≡◌, ◌≤◌, ◌<◌, ◌++◌, ℕ, List, take, slice_index_or, true, false, length, IfSome, IsSome, MatchOption};
ghost use Rattle.std.specs.List.{list_all};
ghost use Rattle.text_io.specs.Text.{is_digit, are_digits, value_after};
ghost use Rattle.section_text.specs.Plain.{AreDigitsBefore, BeginsNoDigit, IsNumberBefore, IsPlainPoint, IsShortNumber, IsShortPoint};

use text_io::is_digit;

// The digits at the front of a text, at most six of them: their value, and how many they are.
fn short_digits(text: &[u8]) -> (u32, usize)
    ensures there { result.1 ≤ length text.now }
    ensures digits { list_all is_digit (take result.1 text.now) ≡ true }
    ensures value { result.0 ≡ value_after 0 (take result.1 text.now) }
    ensures small { result.0 ≤ 999999 }
    ensures few { result.1 ≤ 6 }
    ensures last { result.1 < 6 → result.1 < length text.now
        → is_digit (slice_index_or text.now result.1 0) ≡ false }
{
    let mut value: u32 = 0;
    let mut count = 0;
    while count < 6 && count < text.len() && is_digit(text[count]) {
        value = 10 * value + u32::from(text[count] - b'0');
        count += 1;
    }
    (value, count)
}

// The number of at most six digits at the front of a text, with a sign, and the rest; none if no digit is there.
fn signed_number(text: &[u8], negative: bool) -> Option<(i32, &[u8])>
    ensures before { IfSome result (λ r. AreDigitsBefore text.now negative r.0 r.1.now) }
    ensures all { (digits rest : List ℕ) → text.now ≡ digits ++ rest → are_digits digits ≡ true → length digits ≤ 6
        → BeginsNoDigit rest
        → MatchOption result ⊥ (λ r. r.1.now ≡ rest) }
{
    let (value, count) = short_digits(text);
    if count == 0 {
        return None;
    }
    let (_, rest) = text.split_at(count);
    let value = value as i32;
    Some((if negative { -value } else { value }, rest))
}

// The number of at most six digits at the front of a text, and the rest of it; none if no number is there.
fn short_number(text: &[u8]) -> Option<(i32, &[u8])>
    ensures before { IfSome result (λ r. IsNumberBefore text.now r.0 r.1.now) }
    ensures all { (word rest : List ℕ) → text.now ≡ word ++ rest → IsShortNumber word → BeginsNoDigit rest
        → MatchOption result ⊥ (λ r. r.1.now ≡ rest) }
{
    match text.strip_prefix(b"-") {
        Some(digits) => signed_number(digits, true),
        None => signed_number(text, false),
    }
}

/// The coordinates of a line that is a point in range in its usual form: two numbers of at most six digits with one
/// space between them, and nothing else. It is some for each line of this form. A line for which it returns none may
/// still be a point: the caller reads it word by word. Takes no memory.
pub fn plain_point(line: &[u8]) -> Option<(i32, i32)>
    ensures point { IfSome result (λ p. IsPlainPoint line.now p.0 p.1) }
    ensures usual { IsShortPoint line.now → IsSome result }
{
    let Some((x, rest)) = short_number(line) else {
        return None;
    };
    let Some(second) = rest.strip_prefix(b" ") else {
        return None;
    };
    match short_number(second) {
        Some((y, after)) if after.is_empty() => Some((x, y)),
        _ => None,
    }
}
