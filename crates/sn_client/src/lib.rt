//! A device: one account's items on a disk, and the calls on them.
#![tactic(auto)]

mod accounts;
mod called;
mod changing;
mod device;
mod editing;
mod error;
mod listing;
mod loading;
mod piece_end;
mod registering;
mod resolving;
mod signing;
mod syncing;

pub use called::Called;
pub use device::Device;
pub use error::DeviceError;
