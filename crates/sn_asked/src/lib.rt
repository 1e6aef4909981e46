//! How a sync ends of a device that keeps a set as asked for, where that set or its present one is its
//! account's last.
#![tactic(auto)]

mod laws;

pub use laws::{
    asked_counts, asked_syncs_answer, at_rest_finished, every_asked_sync_answers, finished_stays,
    traced_asked_syncs_answer,
};
