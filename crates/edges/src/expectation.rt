// What a test expects.
use std::fmt;
use std::process::Abort;

// As `assert_eq!`, which is much to prove wherever it stands.
pub fn expect<T: PartialEq + fmt::Debug + Drop>(rt: &impl Abort, found: T, expected: T) {
    assert_eq!(rt; found, expected);
}
