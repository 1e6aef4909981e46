//! What is set for an event.

use sn_link::Losses;

/// The moment that the server's clock gives, in microseconds since 1970, and what is lost of the event's exchanges, which are
/// numbered from 1.
#[derive(Clone, Copy, Debug)]
pub struct Setting {
    pub now: u64,
    pub losses: Losses,
}
