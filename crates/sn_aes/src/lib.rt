//! AES-256 on one block (FIPS 197): the cipher and its inverse, by tables.
#![tactic(auto)]

mod block_cipher;
mod bytes;
mod decryption;
mod encryption;
mod key_schedule;
mod substitution;
mod tables;

pub use block_cipher::{Aes256Dec, Aes256Enc};
pub use bytes::{block_of_columns, columns_of_block, xor_columns};
