//! How many requests and commits a change of password makes that is answered.
#![tactic(auto)]

mod laws;

pub use laws::{
    changes_bounded, changes_commit, few_portions, one_division, second_whole, whole_begins,
    whole_changes, whole_stays,
};
