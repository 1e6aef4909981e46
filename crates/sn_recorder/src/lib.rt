//! A link to a server in memory that records its exchanges, each with the batches that the server's store gained by it.
#![tactic(auto)]

mod delivered;
mod exchanged;
mod gaining;
mod laws;
mod recording;
mod standing;

pub use delivered::Delivered;
pub use exchanged::Exchanged;
pub use laws::{agains_have_fates, exchanges_have_fates};
pub use recording::{Recorded, RecordingLink};
pub use standing::server_stands;
