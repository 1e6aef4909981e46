//! AES-256 in CBC mode (NIST SP 800-38A, 6.2) with the padding of RFC 5652, 6.3.
#![tactic(auto)]

mod blocks;
mod chain;
mod error;
mod laws;
mod padding;
mod sealing;

pub use error::CbcError;
pub use laws::{one_ciphertext, one_plain};
pub use sealing::{seal, seal_owned, unseal, unseal_owned};
