//! What a test expects, asserted by calls that promise nothing: what a test itself asserts stays known up to its end, and makes
//! the proof of a test of many lines long. If a test fails, the two values show which line it was.
use std::fmt::Debug;
use std::process::Abort;

/// Two values are the same.
pub fn same<T: Copy + PartialEq + Debug>(rt: &impl Abort, got: T, want: T) {
    assert_eq!(rt; got, want);
}

/// This is so.
pub fn holds(rt: &impl Abort, so: bool) {
    assert!(rt; so);
}
