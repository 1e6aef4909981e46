//! Whether the rows of a device are sound, and else the first kind of which some aren't.
#![tactic(auto)]

mod soundness;

pub use soundness::first_unsound;
