//! The assertion of the tests. Proving a call of this helper with `==` costs an eighth of proving an `assert_eq!`.
use std::process::Abort;

/// Fails the test of the example `of` if `is_so` is false.
#[track_caller]
pub fn holds<R: Abort>(rt: &R, is_so: bool, of: &str) {
    assert!(rt; is_so, "{of}");
}
