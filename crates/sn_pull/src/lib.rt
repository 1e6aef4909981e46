//! A whole pull: a sync of a device that has nothing to send, over the honest server's rule, and what it
//! leaves.
#![tactic(auto)]

mod laws;

pub use laws::{
    begun_may_pull, pages_answer, pull_among_others, pull_goes_on, pull_stays, whole_pull,
};
