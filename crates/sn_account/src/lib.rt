//! The rules of a server: what it answers to a request about accounts, and what it changes.
#![tactic(auto)]

pub mod accounts;
mod all_rows;
pub mod answer_laws;
pub mod answering;
mod apart;
mod bounds;
mod changes;
pub mod first;
mod incoming;
mod lookups;
pub mod marking;
mod names;
pub mod page;
mod pages;
pub mod passwords;
mod place;
mod places;
mod refusals;
mod replies;
mod row_tests;
pub mod rule_laws;
pub mod session_laws;
pub mod sessions;
pub mod sound_laws;
pub mod soundness;
pub mod state;
mod stored;
mod sync;
pub mod taken;
mod taking;
mod tokens;

pub use accounts::{Ruled, parameters, register, sign_in};
pub use answering::answer;
pub use first::first_state;
pub use passwords::change_password;
pub use sessions::account_uuid;
pub use soundness::first_unsound;
pub use state::State;
