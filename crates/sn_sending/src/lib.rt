//! What a sync sends: of the items that wait, the longest front that fits one request.
#![tactic(auto)]

mod sending;

pub use sending::{Sending, is_left, next_sending};
