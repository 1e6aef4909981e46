//! How a device comes to an account: the keys of a password, what it asks for with them, and the rows that keep it.
#![tactic(auto)]

mod accounts;
mod registering;
mod signing;

pub use accounts::{Account, ask_account, first_rows, renewed_row};
pub use registering::{is_bad_cost, new_set, registration, registration_refusal};
pub use signing::{Joining, ask_keys, bad_auth, joins_by, other_account, sign_in_request};
