//! The outside of both ends: clocks, links over which requests are asked, and ports at which connections come.
//! A call fails only where its object's count of faults rises.
#![tactic(auto)]

mod clock;
mod link;
mod mem_clock;
mod mem_link;
mod mem_port;
mod port;

pub use clock::Clock;
pub use link::{AskError, Link};
pub use mem_clock::MemClock;
pub use mem_link::{Asked, MemLink};
pub use mem_port::MemPort;
pub use port::Port;
