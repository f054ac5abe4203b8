//! Fields of numbers, and lines at a place of a text.
ghost use Rattle.std.specs.Prelude.{◌≡◌, ℕ, ◌+◌, ◌<◌, ◌≤◌, ◌^◌, ◌++◌, [], ◌∷◌, ◌↔◌, IsTrue, pos, negsuc, length, get_or, drop, replicate, decimal, MatchOption};
ghost use Rattle.std.specs.Int.{IsInRange};
ghost use Rattle.byu_text.specs.Fields.{number_field};
ghost use Rattle.byu_text.specs.Stages.{NoneOf};

/// Whether a byte is a blank.
pub fn is_blank(byte: u8) -> bool
    ensures { IsTrue result ↔ (byte ≡ 32) }
{
    byte == b' '
}

fn is_feed(byte: u8) -> bool
    ensures { IsTrue result ↔ (byte ≡ 10) }
{
    byte == b'\n'
}

fn is_digit(byte: u8) -> bool
    ensures { IsTrue result ↔ IsInRange 48 57 byte }
{
    b'0' <= byte && byte <= b'9'
}

/// The number that some bytes write in decimal; none if they write none, as with a zero before other digits.
pub fn number_in(digits: &[u8]) -> Option<u32>
    requires { length digits.now ≤ 8 }
    ensures { MatchOption result ((n : ℕ) → n < 10 ^ 8 → digits.now ≡ decimal n → ⊥) (λ n.
        (n < 10 ^ length digits.now) × (digits.now ≡ decimal n)) }
{
    if digits.is_empty() {
        return None;
    }
    if digits[0] == b'0' && digits.len() > 1 {
        return None;
    }
    let mut number = 0;
    for byte in digits {
        if !is_digit(*byte) {
            return None;
        }
        number = 10 * number + u32::from(*byte - b'0');
    }
    Some(number)
}

// The rest of a field after its blanks.
fn behind_blanks(field: &[u8]) -> &[u8]
    ensures blanks { (k : ℕ) × (field.now ≡ replicate k 32 ++ result.now) }
    ensures begins { get_or result.now 0 0 ≡ 32 → ⊥ }
{
    let mut blanks = 0;
    while blanks < field.len() && is_blank(field[blanks]) {
        blanks += 1;
    }
    &field[blanks..]
}

/// The number, not negative, that a field of 8 columns writes; none if it writes none.
pub fn number_of(field: &[u8]) -> Option<u32>
    requires { length field.now ≡ 8 }
    ensures { MatchOption result ((n : ℕ) → n < 10 ^ 8 → field.now ≡ number_field (pos n) → ⊥) (λ n.
        (n < 10 ^ 8) × (field.now ≡ number_field (pos n))) }
{
    number_in(behind_blanks(field))
}

/// The id of the vertex whose number, counted from 1, a field of 8 columns writes with a minus; none if it writes
/// none.
pub fn negative_id(field: &[u8]) -> Option<u32>
    requires { length field.now ≡ 8 }
    ensures { MatchOption result ((id : ℕ) → id + 1 < 10 ^ 7 → field.now ≡ number_field (negsuc id) → ⊥) (λ id.
        (id + 1 < 10 ^ 7) × (field.now ≡ number_field (negsuc id))) }
{
    let number = behind_blanks(field);
    if number.is_empty() {
        return None;
    }
    if number[0] != b'-' {
        return None;
    }
    let size = number_in(&number[1..])?;
    if size == 0 {
        return None;
    }
    Some(size - 1)
}

/// The bytes of a line with `count` bytes before its line feed, at a place of a text; none if no such line is there.
pub fn line_at(text: &[u8], at: usize, count: usize) -> Option<&[u8]>
    requires { at + count < 2 ^ 63 }
    ensures { MatchOption result (NoneOf (λ body. length body ≡ count) (λ body. body ++ 10 ∷ []) (drop at text.now))
        (λ line.
        (length line.now ≡ count)
        × (drop at text.now ≡ (line.now ++ 10 ∷ []) ++ drop (at + (count + 1)) text.now)) }
{
    if text.len() <= at + count {
        return None;
    }
    if !is_feed(text[at + count]) {
        return None;
    }
    Some(&text[at..at + count])
}
