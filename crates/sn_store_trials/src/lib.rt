//! Tests of streams, disks, the journal, its rows and the network in memory, by the public calls of their crates. They stand above
//! these, since a crate with tests of its own is proved twice. There is nothing else here.
#![tactic(auto)]

#[cfg(test)]
mod disk;
#[cfg(test)]
mod io;
#[cfg(test)]
mod journal;
#[cfg(test)]
mod net;
#[cfg(test)]
mod row_map;
#[cfg(test)]
mod rows;
#[cfg(test)]
mod system;
#[cfg(test)]
mod tail;
