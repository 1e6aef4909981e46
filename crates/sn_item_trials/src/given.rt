//! What the tables spell. Digits that are none give zeros, and so other values than are expected.

use sn_string::{Params, Text, hash_bytes, iv_bytes, key_bytes, uuid_of};
use uuid::Uuid;

pub fn hash(digits: &str) -> [u8; 32] {
    hash_bytes(digits).unwrap_or([0; 32])
}

pub fn iv(digits: &str) -> [u8; 16] {
    iv_bytes(digits).unwrap_or([0; 16])
}

pub fn key(digits: &str) -> [u8; 64] {
    key_bytes(digits).unwrap_or([0; 64])
}

pub fn uuid(text: &str) -> Uuid {
    uuid_of(text).unwrap_or(Uuid::nil())
}

pub fn params(identifier: &'static str, cost: u32, nonce: &'static str) -> Option<Params> {
    Params::new(Text::fixed(identifier), cost, Text::fixed(nonce))
}

pub fn alice() -> Option<Params> {
    params("alice", 1, "6e")
}

/// 32 bytes, each one more than the one before.
pub fn counting(first: u8) -> [u8; 32] {
    let mut bytes = [0u8; 32];
    for i in 0..32u8 {
        bytes[i as usize] = first.wrapping_add(i);
    }
    bytes
}
