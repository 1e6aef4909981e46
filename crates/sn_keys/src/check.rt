//! What a server keeps of an account's password.

ghost use Rattle.std.specs.Prelude.{◌≡◌};
ghost use Rattle.sn_keys.specs.Keys.{check_value};

use sha2::{Digest, Sha256};
use sn_string::hash_digits;

/// The check value of a server's password: the SHA-256 (FIPS 180-4) of its 64 lower-case hex digits. Takes no memory.
pub fn check_of(pw: &[u8; 32]) -> [u8; 32]
    ensures { result ≡ check_value pw.now }
{
    let digits = hash_digits(pw);
    Sha256::digest(digits.as_slice())
}
