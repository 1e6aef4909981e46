//! A change of password that is finished: a device of the account has retired the set before the last
//! one, and what that leaves of the account.
#![tactic(auto)]

mod laws;

pub use laws::{
    devices_retire, finished_carries, finished_carries_one, finisher_holds, next_changes,
    retired_unused, retiring_finishes, stays_finished,
};
