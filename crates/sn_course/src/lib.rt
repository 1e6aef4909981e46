//! What a replay of a script promises of its report and of the disks of both ends.
#![tactic(auto)]

mod laws;
mod settings;

pub use laws::{
    carried_of_moves, goes_more, moves_more, recounts_go, recounts_grow, recounts_more,
    reporting_more,
};
pub use settings::Settings;
