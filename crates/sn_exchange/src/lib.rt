//! One exchange of a device with a server: the request that is asked over a link, and what comes of it.
#![tactic(auto)]

mod asking;

pub use asking::{MOST_EXCHANGES, ask, ask_with, hear_behind};
