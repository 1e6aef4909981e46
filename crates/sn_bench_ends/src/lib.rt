//! Both ends in memory as C functions, a device, a link and the real server, and the server's rules alone, so that a program outside
//! can time them beside the sealing and opening of as many items alone.
//!
//! A slice is a pointer and then a length in C, an array behind a reference a pointer, and a `Global` nothing.
#![tactic(auto)]

mod client;
mod ends;
mod items;
mod rules;
mod runs;
mod setting;
