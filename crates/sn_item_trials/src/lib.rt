//! Tests of ciphers, keys, strings and items, by the public calls of their crates. They stand above these, since a crate with tests of its own
//! is proved twice. There is nothing else here.
#![tactic(auto)]

#[cfg(test)]
mod cases;
#[cfg(test)]
mod cbc;
#[cfg(test)]
mod given;
#[cfg(test)]
mod hmac;
#[cfg(test)]
mod items;
#[cfg(test)]
mod keys;
#[cfg(test)]
mod notes;
#[cfg(test)]
mod string;
