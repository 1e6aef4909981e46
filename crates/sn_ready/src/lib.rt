//! How a sync and a change of password end of a device that holds its account's last key set, whatever
//! passwords were changed before.
#![tactic(auto)]

mod laws;

pub use laws::{
    change_counts, ready_passwds_answer, ready_syncs_answer, traced_ready_syncs_answer,
};
