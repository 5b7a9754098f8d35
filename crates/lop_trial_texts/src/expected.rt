// Assertions, written once: an `assert_eq!` is proved where it stands, with all that its message may print, and that took
// half of a test's proof.
ghost use Rattle.std.specs.Prelude.{IsTrue};

use std::fmt::Debug;
use std::process::Abort;

/// What was found is what was expected.
pub(crate) fn same<T: PartialEq + Debug>(rt: &impl Abort, found: &T, expected: &T) {
    assert_eq!(rt; found, expected);
}

/// The same in a row of a table, which the message names.
pub(crate) fn same_at<T: PartialEq + Debug>(rt: &impl Abort, found: &T, expected: &T, row: &str) {
    assert_eq!(rt; found, expected, "at {row:?}");
}

/// It holds, and what stands below may rely on it.
pub(crate) fn holds(rt: &impl Abort, is_so: bool)
    ensures { IsTrue is_so }
{
    assert!(rt; is_so);
}

/// The same in a row of a table, which the message names.
pub(crate) fn holds_at(rt: &impl Abort, is_so: bool, row: &str)
    ensures { IsTrue is_so }
{
    assert!(rt; is_so, "at {row:?}");
}
