//! The comparison of two values in a test.
use std::fmt::Debug;
use std::process::Abort;

/// Ends the test if the values differ.
pub(crate) fn same<R: Abort, T: PartialEq + Debug + Drop>(rt: &R, one: T, other: T) {
    assert_eq!(rt; one, other);
}
