//! Texts written at the end of others: bytes, and integers in decimal.
ghost use Rattle.std.specs.Prelude.{◌≡◌, ◌++◌, decimal, OnOk};
ghost use Rattle.std.specs.Fmt.{signed_decimal};

use itoa::Buffer;
use std::alloc::AllocError;

/// Appends bytes; `AllocError` if memory runs out.
pub fn put(out: &mut Vec<u8>, bytes: &[u8]) -> Result<(), AllocError>
    ensures { OnOk result (out.new.items ≡ out.old.items ++ bytes.now) }
{
    out.extend_from_slice(bytes)?;
    Ok(())
}

/// Appends the decimal digits of a count; `AllocError` if memory runs out.
pub fn put_count(out: &mut Vec<u8>, count: usize) -> Result<(), AllocError>
    ensures { OnOk result (out.new.items ≡ out.old.items ++ decimal count) }
{
    let mut buffer = Buffer::new();
    put(out, buffer.format(count).as_bytes())
}

/// Appends a number: its decimal digits, with a minus before a negative one; `AllocError` if memory runs out.
pub fn put_number(out: &mut Vec<u8>, number: i64) -> Result<(), AllocError>
    ensures { OnOk result (out.new.items ≡ out.old.items ++ signed_decimal number) }
{
    let mut buffer = Buffer::new();
    put(out, buffer.format(number).as_bytes())
}

/// The same for a number of 128 bits.
pub fn put_long(out: &mut Vec<u8>, number: &i128) -> Result<(), AllocError>
    ensures { OnOk result (out.new.items ≡ out.old.items ++ signed_decimal number.now) }
{
    let mut buffer = Buffer::new();
    put(out, buffer.format(*number).as_bytes())
}
