//! The primitives, the keys of passwords, the journal, the rows, the table, HTTP, and the messages, stamps
//! and tokens as C functions, so that a program outside can time them beside other implementations and compare what they answer.
//!
//! A slice is a pointer and then a length in C, an array behind a reference a pointer, and a `Global` nothing.
#![tactic(auto)]

mod cbc;
mod hmac;
mod http;
mod journal;
mod keys;
mod messages;
mod pbkdf;
mod rows;
mod stamps;
mod table;
