//! HMAC (RFC 2104) with SHA-256 and with SHA-512.
//!
//! ```rust
//! use sn_hmac::{Mac256, hmac_sha256};
//!
//! let mut mac = Mac256::new(b"key");
//! mac.update(b"two ");
//! mac.update(b"pieces");
//! assert_eq!(rt; mac.finish(), hmac_sha256(b"key", b"two pieces"));
//! ```
#![tactic(auto)]

mod blocks;
mod mac256;
mod mac512;

pub use mac256::{Mac256, hmac_sha256};
pub use mac512::{Mac512, hmac_sha512};
