//! Tests of scripts, reports and moves, by the public calls of their crates, of what no run of the program shows. They stand above
//! these, since a crate with tests of its own is proved twice. There is nothing else here.
#![tactic(auto)]

#[cfg(test)]
mod generator;
#[cfg(test)]
mod laws;
#[cfg(test)]
mod moves;
#[cfg(test)]
mod report;
#[cfg(test)]
mod summary;
#[cfg(test)]
mod written;
