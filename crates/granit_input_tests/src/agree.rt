//! How tests compare what they were told: a call is one step of a test's proof, where an assertion is one more way out.
use std::fmt::Debug;
use std::process::Abort;

/// Ends the test where an answer isn't the wanted one.
pub(crate) fn agree<T: PartialEq + Debug + Drop>(rt: &impl Abort, told: T, wanted: T) {
    assert_eq!(rt; told, wanted);
}
