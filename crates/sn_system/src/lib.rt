//! The outside of a running program: streams, files, sockets and the clock, in the forms that sn_io,
//! sn_disk and sn_net ask for. Each counts its faults, and tells nothing of its content.
#![tactic(auto)]

mod clock;
mod faults;
mod files;
mod links;
mod ports;
mod sockets;
mod streams;

pub use clock::SystemClock;
pub use files::{FileDisk, FileShelf};
pub use links::TcpLink;
pub use ports::TcpPort;
pub use streams::{Input, Output};
