//! Both ends in memory, event by event: calls of devices at a server, and what each is in the world of both ends.
#![tactic(auto)]

mod beginning;
mod calling;
mod devices;
mod ends;
mod late;
mod laws;
mod marks;
mod outcome;
mod setting;
mod shelving;
mod steady;

pub use devices::Devices;
pub use ends::Ends;
pub use outcome::{Again, Begun, Outcome};
pub use setting::Setting;
pub use steady::{Holding, Steady};
