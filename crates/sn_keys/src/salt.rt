//! The salt of auth parameters.

ghost use Rattle.std.specs.Prelude.{◌≡◌, IfOk, string_bytes};
ghost use Rattle.sn_keys.specs.Keys.{salt, salt_text};

use itoa::Buffer;
use sha2::{Digest, Sha256};
use sn_string::{Params, hash_digits};
use std::alloc::{AllocError, Global};

/// `identifier:SF:003:pw_cost:pw_nonce`, the cost in decimal.
pub fn salt_text(alloc: Global, params: &Params) -> Result<String, AllocError>
    ensures { IfOk result (λ text. string_bytes text ≡ salt_text params.now) }
{
    let identifier = params.identifier.as_str();
    let nonce = params.pw_nonce.as_str();
    format!(in alloc; "{identifier}:SF:003:{}:{nonce}", params.pw_cost)
}

/// The 64 lower-case hex digits of the SHA-256 (FIPS 180-4) of the salt's text. Takes no memory.
pub fn salt_of(params: &Params) -> [u8; 64]
    ensures { result ≡ salt params.now }
{
    let mut cost = Buffer::new();
    let mut hasher = Sha256::new();
    hasher.update(params.identifier.as_str());
    hasher.update(":SF:003:");
    hasher.update(cost.format(params.pw_cost));
    hasher.update(":");
    hasher.update(params.pw_nonce.as_str());
    hash_digits(&hasher.finalize())
}
