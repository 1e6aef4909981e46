//! What the rows of both ends show of the ideal state, and what each commit makes of it.
#![tactic(auto)]

pub mod adopting_laws;
pub mod device_laws;
pub mod meeting_laws;
pub mod rekeying_laws;
pub mod server_laws;
