//! Fields of fixed width.
ghost use Rattle.std.specs.Prelude.{◌≡◌, ◌+◌, ◌<◌, ◌≤◌, ◌++◌, unsigned_abs, OnOk};
ghost use Rattle.fku_types.specs.Points.{IsCoordinate, IsInRange};
ghost use Rattle.byu_text.specs.Fields.{FitsField, number_field, sign_byte, three_digits, coordinate_field, point_fields, IsFilled};

use fku_types::{NoMemory, Point};
use itoa::write_digits;

/// An integer from -9,999,999 to 99,999,999, right-aligned in 8 columns.
#[inline(always)]
pub fn number_field(number: i32) -> [u8; 8]
    requires { FitsField number }
    ensures { result ≡ number_field number }
{
    let mut field = *b"        ";
    let start = write_digits(u64::from(number.unsigned_abs()), &mut field, 8);
    if number < 0 {
        field[start - 1] = b'-';
    }
    field
}

// A minus for a negative number, else a blank.
fn sign(value: i32) -> u8
    ensures { result ≡ sign_byte value }
{
    if value < 0 { b'-' } else { b' ' }
}

// A digit as text.
#[inline(always)]
fn digit(number: u32) -> u8
    requires { number < 10 }
    ensures { result ≡ 48 + number }
{
    b'0' + number as u8
}

// The last three digits of a number below 1,000, with leading zeros.
#[inline(always)]
fn three_digits(number: u32) -> [u8; 3]
    requires { number < 1000 }
    ensures { result ≡ three_digits number }
{
    let rest = number % 100;
    [digit(number / 100), digit(rest / 10), digit(rest % 10)]
}

// How many digits a number below a million has after its first, and the number filled up to six digits with zeros at
// its end.
#[inline(always)]
fn filled(number: u32) -> (u8, u32)
    requires { number ≤ 999999 }
    ensures filled { IsFilled number result.0 result.1 }
    ensures six { result.1 ≤ 999999 }
{
    if number < 10 {
        (0, number * 100_000)
    } else if number < 100 {
        (1, number * 10_000)
    } else if number < 1_000 {
        (2, number * 1_000)
    } else if number < 10_000 {
        (3, number * 100)
    } else if number < 100_000 {
        (4, number * 10)
    } else {
        (5, number)
    }
}

/// A coordinate in 12 columns.
#[inline(always)]
pub fn coordinate_field(value: i32) -> [u8; 12]
    requires { IsCoordinate value }
    ensures { result ≡ coordinate_field value }
{
    let (others, six) = filled(value.unsigned_abs());
    // Dividing each half separately takes fewer long multiplications than dividing the whole for each digit.
    let [first, second, third] = three_digits(six / 1_000);
    let [fourth, fifth, sixth] = three_digits(six % 1_000);
    [
        sign(value),
        first,
        b'.',
        second,
        third,
        fourth,
        fifth,
        sixth,
        b'E',
        b'+',
        b'0',
        b'0' + others,
    ]
}

/// The last height of a vertex and its field, which is used again since all vertices of a section have one height.
#[derive(Clone, Copy)]
pub struct Height {
    pub value: i32,
    field: [u8; 12],
    ghost in_range: { IsCoordinate value },
    ghost made: { field ≡ coordinate_field value },
}

impl Height {
    /// A height with its field.
    pub fn new(value: i32) -> Height
        requires { IsCoordinate value }
        ensures { result.value ≡ value }
    {
        let field = coordinate_field(value);
        Height { value, field }
    }

    // The field of a height; it is made again only if the height has changed.
    #[inline(always)]
    fn field_of(&mut self, value: i32) -> [u8; 12]
        requires { IsCoordinate value }
        ensures { result ≡ coordinate_field value }
    {
        if value != self.value {
            *self = Height::new(value);
        }
        self.field
    }
}

/// Appends the three coordinates of a point to the text. The last height becomes the point's.
pub fn put_point(text: &mut Vec<u8>, height: &mut Height, point: Point) -> Result<(), NoMemory>
    requires { IsInRange point }
    ensures { OnOk result (text.new.items ≡ text.old.items ++ point_fields point) }
{
    text.extend_from_slice(&coordinate_field(point.x))?;
    text.extend_from_slice(&coordinate_field(point.y))?;
    text.extend_from_slice(&height.field_of(point.z))?;
    Ok(())
}
