//! Fields of coordinates.
ghost use Rattle.std.specs.Prelude.{◌≡◌, ℤ, pos, ◌<◌, ◌^◌, ◌↔◌, IsTrue, length, get_or, drop, replicate, MatchOption};
ghost use Rattle.fku_types.specs.Points.{IsCoordinate};
ghost use Rattle.byu_text.specs.Fields.{coordinate_field};

use crate::read_fields::{is_blank, number_in};

// Whether the point and the exponent's first three bytes are at their places in a coordinate's field.
fn has_marks(field: &[u8]) -> bool
    requires { length field.now ≡ 12 }
    ensures { IsTrue result
        ↔ ((get_or field.now 2 0 ≡ 46)
        × (get_or field.now 8 0 ≡ 69)
        × (get_or field.now 9 0 ≡ 43)
        × (get_or field.now 10 0 ≡ 48)) }
{
    field[2] == b'.' && field[8] == b'E' && field[9] == b'+' && field[10] == b'0'
}

fn are_zeros(digits: &[u8]) -> bool
    ensures { IsTrue result ↔ (digits.now ≡ replicate (length digits.now) 48) }
{
    for digit in digits {
        if *digit != b'0' {
            return false;
        }
    }
    true
}

// The absolute value of a coordinate, from its field of 12 bytes after the sign; none if the field is not of this form.
fn size_of(field: &[u8]) -> Option<u32>
    requires { length field.now ≡ 12 }
    ensures { MatchOption result ((z : ℤ) → IsCoordinate z → drop 1 field.now ≡ drop 1 (coordinate_field z) → ⊥) (λ n.
        (n < 10 ^ 6) × (drop 1 field.now ≡ drop 1 (coordinate_field (pos n)))) }
{
    let power = field[11];
    if power < b'0' || b'5' < power {
        return None;
    }
    if !has_marks(field) {
        return None;
    }
    let digits = [field[1], field[3], field[4], field[5], field[6], field[7]];
    let (some, zeros) = digits.split_at(1 + usize::from(power - b'0'));
    if !are_zeros(zeros) {
        return None;
    }
    number_in(some)
}

/// The coordinate that a field of 12 bytes writes; none if it writes none.
pub fn coordinate_of(field: &[u8]) -> Option<i32>
    requires { length field.now ≡ 12 }
    ensures { MatchOption result ((z : ℤ) → IsCoordinate z → field.now ≡ coordinate_field z → ⊥) (λ z.
        IsCoordinate z × (field.now ≡ coordinate_field z)) }
{
    let size = size_of(field)? as i32;
    if is_blank(field[0]) {
        return Some(size);
    }
    if field[0] != b'-' || size == 0 {
        return None;
    }
    Some(-size)
}
