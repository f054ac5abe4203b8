//! What tests of runs compare.
use std::fmt::Debug;
use std::process::Abort;

/// Ends the test if the values differ.
pub(crate) fn same<R: Abort, T: PartialEq + Debug + Drop>(rt: &R, one: T, other: T) {
    assert_eq!(rt; one, other);
}

/// Ends the test if these bytes, which may be many, differ, and shows none of them.
pub(crate) fn alike<R: Abort>(rt: &R, one: &[u8], other: &[u8]) {
    assert!(rt; one == other);
}

/// Asserts that the text begins with these bytes.
pub(crate) fn begins_with<R: Abort>(rt: &R, text: &[u8], begin: &[u8]) {
    assert!(rt; text.starts_with(begin));
}
