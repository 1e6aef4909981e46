//! A call of a device on the store of a name: its disk is taken from a shelf, the device is loaded, the link is aimed where
//! the call asks a server, the call is made, and the disk is given back.
#![tactic(auto)]

mod aiming;
mod calling;
mod device_call;
mod ends;
mod making;

pub use calling::call;
pub use device_call::DeviceCall;
pub use ends::{Answered, CallEnd};
