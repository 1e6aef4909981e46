//! Tests that are tables of cases: what they share is proved once.

use std::alloc::Global;
use std::process::Abort;

/// A row of a table.
pub trait Case {
    /// What a failure is told by.
    fn name(&self) -> &'static str;

    /// Whether it comes out as the row says.
    fn holds(&self, alloc: Global) -> bool;
}

/// Asserts each case of a table.
pub fn each<C: Case>(rt: &impl Abort, alloc: Global, cases: &[C]) {
    for case in cases {
        so(rt, case.name(), case.holds(alloc));
    }
}

/// Asserts what is told by its name.
pub fn so(rt: &impl Abort, name: &str, is_so: bool) {
    assert!(rt; is_so, "{name}");
}
