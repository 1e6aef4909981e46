//! Serving a store at a port: a disk is taken from a shelf, and connections are served one after another until so
//! many requests are answered.
#![tactic(auto)]

mod ends;
mod hosting;
mod laws;
mod listening;
mod serving;

pub use ends::Served;
pub use laws::one_list;
pub use serving::serve;
