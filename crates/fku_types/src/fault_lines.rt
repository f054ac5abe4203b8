//! Lines that hold the words of faults, and the calls that make them. Nothing here takes memory.
ghost use Rattle.std.specs.Prelude.{◌≡◌, ◌≤◌, ◌+◌, ◌++◌, length, decimal};
ghost use Rattle.std.specs.Fmt.{signed_decimal};
ghost use Rattle.arrayvec.specs.ArrayVec.{array_vec_len};

use crate::limits::MAX_NAME_BYTES;
use crate::name::Name;
use arrayvec::ArrayVec;
use itoa::Buffer;

/// The most bytes of the words of a fault: two names and what stands around them.
pub const LINE_BYTES: usize = 2 * MAX_NAME_BYTES + 96;

/// The most bytes before the first number or name of a fault.
pub const FRONT_BYTES: usize = 64;

/// The words of a fault.
pub type FaultLine = ArrayVec<u8, LINE_BYTES>;

/// Appends these bytes to a line that has room for them.
pub fn put(line: &mut FaultLine, bytes: &[u8])
    requires { array_vec_len line.old + length bytes.now ≤ LINE_BYTES }
    ensures bytes { line.new.items ≡ line.old.items ++ bytes.now }
    ensures len { array_vec_len line.new ≡ array_vec_len line.old + length bytes.now }
{
    line.try_extend_from_slice(bytes).unwrap();
}

/// Appends a number in decimal to a line that has room for ten digits.
pub fn put_number(line: &mut FaultLine, number: u32)
    requires { array_vec_len line.old + 10 ≤ LINE_BYTES }
    ensures bytes { line.new.items ≡ line.old.items ++ decimal number }
    ensures len { array_vec_len line.new ≤ array_vec_len line.old + 10 }
{
    let mut buffer = Buffer::new();
    put(line, buffer.format(number).as_bytes());
}

/// Appends a name to a line that has room for the longest one.
pub fn put_name(line: &mut FaultLine, name: &Name)
    requires { array_vec_len line.old + MAX_NAME_BYTES ≤ LINE_BYTES }
    ensures bytes { line.new.items ≡ line.old.items ++ name.now }
    ensures len { array_vec_len line.new ≤ array_vec_len line.old + MAX_NAME_BYTES }
{
    put(line, name.as_bytes());
}

/// A line of these bytes, at most `LINE_BYTES`.
pub fn words(bytes: &[u8]) -> FaultLine
    requires { length bytes.now ≤ LINE_BYTES }
    ensures bytes { result.items ≡ bytes.now }
    ensures len { array_vec_len result ≡ length bytes.now }
{
    let mut line = ArrayVec::new();
    put(&mut line, bytes);
    line
}

/// A line of these bytes, at most `FRONT_BYTES`, and a number in decimal.
pub fn numbered(before: &[u8], number: u32) -> FaultLine
    requires { length before.now ≤ FRONT_BYTES }
    ensures bytes { result.items ≡ before.now ++ decimal number }
    ensures len { array_vec_len result ≤ length before.now + 10 }
{
    let mut line = words(before);
    put_number(&mut line, number);
    line
}

/// A line of these bytes, at most `FRONT_BYTES`, and a height in decimal.
pub fn at_height(before: &[u8], z: i32) -> FaultLine
    requires { length before.now ≤ FRONT_BYTES }
    ensures { result.items ≡ before.now ++ signed_decimal z }
{
    let mut line = words(before);
    let mut buffer = Buffer::new();
    put(&mut line, buffer.format(z).as_bytes());
    line
}
