//! A server: a store on a disk, and sessions over connections. A reply comes after its commit.
#![tactic(auto)]

mod error;
mod handling;
mod loading;
mod reply;
mod routing;
mod server;
mod serving;

pub use error::ServerError;
pub use handling::Handled;
pub use server::Server;
pub use serving::{Ended, Session};
