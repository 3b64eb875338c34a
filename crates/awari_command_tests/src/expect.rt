//! What the tests expect of values. An assertion takes the prover seconds wherever it stands, the more
//! values are dropped behind it, and a call of one of these a tenth of that. Each is told its case,
//! since all failures name lines of this file.

use std::fmt::Debug;
use std::process::Abort;

/// What was found in this case is what was expected.
pub(crate) fn expect_equal<T: PartialEq + Debug + Drop>(
    rt: &impl Abort,
    case: impl Debug + Drop,
    found: T,
    expected: T,
) {
    assert_eq!(rt; found, expected, "{case:?}");
}

/// What is said of this case holds.
pub(crate) fn expect(rt: &impl Abort, case: impl Debug + Drop, holds: bool) {
    assert!(rt; holds, "{case:?}");
}
