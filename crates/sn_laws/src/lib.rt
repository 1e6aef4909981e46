//! The ideal account: what versions, drafts and key sets the two ends are to show, and the moves
//! between such states.
#![tactic(auto)]

mod allowed;
mod clones;
mod effects;
pub mod ideal;
pub mod kept_laws;
pub mod laws;
mod lookups;
mod meeting;
pub mod moves;
mod redrafted;
mod rekeyed;
mod rekeying;
mod run;
pub mod state_laws;

pub use ideal::{Account, Body, Content, Device, Draft, Ideal, Posted, Version};
pub use moves::Move;
pub use run::{first_illegal, step};
