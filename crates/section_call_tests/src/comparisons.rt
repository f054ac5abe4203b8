//! How tests compare results with expected values.
use fku_types::{Fault, fault_line};
use std::fmt::Debug;
use std::process::Abort;
use std::test::Fail;

/// Asserts that two values are equal.
pub fn same<R: Abort, T: PartialEq + Debug + Drop>(rt: &R, one: T, other: T) {
    assert_eq!(rt; one, other);
}

/// Asserts the words of a fault; there are none if there is no fault.
pub fn tell<R: Abort>(rt: &R, fault: Option<Fault>, words: &[u8]) -> Result<(), Fail> {
    let Some(fault) = fault else {
        same(rt, b"".as_slice(), words);
        return Ok(());
    };
    let line = fault_line(&fault).ok_or("the fault has words")?;
    same(rt, line.as_slice(), words);
    Ok(())
}
