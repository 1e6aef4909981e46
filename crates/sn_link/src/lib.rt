//! A link in memory to a server that it owns: what becomes of each request, and what that says of the server's rows.
#![tactic(auto)]

mod clock;
mod delivery;
mod keeper;
mod laws;
mod link;
mod losses;

pub use delivery::Held;
pub use laws::{again_serves, link_serves, readable_within, served_unless_wanting};
pub use link::ServingLink;
pub use losses::{Losses, Lost};
