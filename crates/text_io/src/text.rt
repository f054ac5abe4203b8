//! Lines, words and integers.
ghost use Rattle.std.specs.Prelude.{◌≡◌, ◌≤◌, ◌↔◌, length, not, true, Some, None, IfSome, IsNone, [], if◌then◌else◌, nat_le};
ghost use Rattle.std.specs.List.{list_all, position};
ghost use Rattle.text_io.specs.Text.{IsLineAt, is_blank, is_feed, without_return, is_digit, are_digits, digits_of, signed, number_of, value_after, Reads};
ghost use Rattle.std.specs.Option.{option_map};
ghost use Rattle.text_io.specs.declared.text.Number.TheVariants.{Value};

use fku_types::limits::MAX_NUMBER;

/// Where a line lies: its bytes go from `first` to before `end`, and the following line begins at `next`.
#[derive(Clone, Copy, Debug, PartialEq, Eq)]
pub struct LineSpan {
    pub first: usize,
    pub end: usize,
    pub next: usize,
}

/// The line that begins at a byte, without its line feed and the carriage return before it; none at the end of the
/// text.
pub fn line_at(bytes: &[u8], at: usize) -> Option<LineSpan>
    requires { at ≤ length bytes.now }
    ensures none { IsNone result ↔ (at ≡ length bytes.now) }
    ensures found { IfSome result (λ l. IsLineAt bytes.now at l.first l.end l.next) }
{
    if at == bytes.len() {
        return None;
    }
    let (_, rest) = bytes.split_at(at);
    let length = feed_in(rest).unwrap_or(rest.len());
    let line = without_return(&rest[..length]);
    Some(LineSpan {
        first: at,
        end: at + line.len(),
        next: at + rest.len().min(length + 1),
    })
}

fn feed_in(text: &[u8]) -> Option<usize>
    ensures { result ≡ position is_feed text.now }
{
    text.iter().position(|b| *b == b'\n')
}

fn without_return(line: &[u8]) -> &[u8]
    ensures { result.now ≡ without_return line.now }
{
    line.strip_suffix(b"\r").unwrap_or(line)
}

fn is_blank(b: u8) -> bool
    ensures { result ≡ is_blank b }
{
    b == b' ' || b == b'\t'
}

// Where the first word of a line begins.
pub(crate) fn word_in(line: &[u8]) -> Option<usize>
    ensures { result ≡ position (λ b. not (is_blank b)) line.now }
{
    line.iter().position(|b| !is_blank(*b))
}

// Where the first blank of a line lies.
pub(crate) fn blank_in(line: &[u8]) -> Option<usize>
    ensures { result ≡ position is_blank line.now }
{
    line.iter().position(|b| is_blank(*b))
}

/// An integer: its value, or `Far` where it is above `MAX_NUMBER` in absolute value.
#[derive(Clone, Copy, Debug, PartialEq, Eq)]
pub enum Number {
    Value(i128),
    Far,
}

// The number of a sign and an absolute value.
fn with_sign(negative: bool, value: u128) -> Number
    requires { value ≤ MAX_NUMBER }
    ensures { result ≡ Value (signed negative value) }
{
    let value = value as i128;
    Number::Value(if negative { -value } else { value })
}

// A number that takes one more digit in 64 bits.
const SHORT: u64 = 1_000_000_000_000_000_000;

/// The value of a word that is an integer, an optional minus and one or more digits; none for any other word.
pub fn read_number(word: &[u8]) -> Option<Number>
    ensures { Reads (number_of word.now) result }
{
    match word {
        [] => None,
        [b'-', digits @ ..] => read_digits(digits, true),
        digits => read_digits(digits, false),
    }
}

fn read_digits(digits: &[u8], negative: bool) -> Option<Number>
    ensures { Reads (option_map (signed negative) (digits_of digits.now)) result }
{
    if !are_digits(digits) {
        return None;
    }
    match magnitude(digits) {
        Some(value) => Some(with_sign(negative, value)),
        None => Some(Number::Far),
    }
}

fn are_digits(word: &[u8]) -> bool
    ensures { result ≡ are_digits word.now }
{
    !word.is_empty() && all_digits(word)
}

fn all_digits(word: &[u8]) -> bool
    ensures { result ≡ list_all is_digit word.now }
{
    word.iter().all(|b| is_digit(*b))
}

/// Whether a byte is one of the ten decimal digits. Takes no memory.
pub fn is_digit(b: u8) -> bool
    ensures { result ≡ is_digit b }
{
    b.is_ascii_digit()
}

// The value of digits, where the loop keeps it in 64 bits; else none.
fn short_magnitude(digits: &[u8]) -> Option<u64>
    requires { are_digits digits.now ≡ true }
    ensures { IfSome result (λ n. n ≡ value_after 0 digits.now) }
{
    let mut value = 0;
    for b in digits {
        if value > SHORT {
            return None;
        }
        value = 10 * value + u64::from(*b - b'0');
    }
    Some(value)
}

// The value of digits, where it is at most `MAX_NUMBER`.
fn long_magnitude(digits: &[u8]) -> Option<u128>
    requires { are_digits digits.now ≡ true }
    ensures { result
        ≡ (if nat_le (value_after 0 digits.now) MAX_NUMBER then Some (value_after 0 digits.now) else None) }
{
    let mut value = 0u128;
    for b in digits {
        value = 10 * value + u128::from(*b - b'0');
        if value > MAX_NUMBER {
            return None;
        }
    }
    Some(value)
}

// The same; 64 bits are tried first.
fn magnitude(digits: &[u8]) -> Option<u128>
    requires { are_digits digits.now ≡ true }
    ensures { result
        ≡ (if nat_le (value_after 0 digits.now) MAX_NUMBER then Some (value_after 0 digits.now) else None) }
{
    match short_magnitude(digits) {
        Some(value) => Some(u128::from(value)),
        None => long_magnitude(digits),
    }
}
