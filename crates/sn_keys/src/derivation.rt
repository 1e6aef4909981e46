//! The keys of a password.

ghost use Rattle.std.specs.Prelude.{◌≡◌, ◌≤◌, IfOk};
ghost use Rattle.sn_keys.specs.Keys.{AreKeysOf, third};

use crate::salt::salt_of;
use sn_pbkdf::derive96;
use sn_string::{KeySet, Params, TryClone};
use std::alloc::{AllocError, Global};

/// The keys that a password gives under auth parameters: the server's password, the master key and the
/// authentication key, 32 bytes each, the parts of the 96 bytes that PBKDF2 (RFC 8018) derives.
///
/// The time goes with the parameters' cost.
pub fn derive(alloc: Global, password: &str, params: &Params) -> Result<KeySet, AllocError>
    ensures { IfOk result (λ set. AreKeysOf password.now params.now set) }
{
    let params = params.try_clone(alloc)?;
    let salt = salt_of(&params);
    let bytes = derive96(password.as_bytes(), &salt, params.pw_cost);
    Ok(KeySet {
        pw: part(&bytes, 0),
        mk: part(&bytes, 32),
        ak: part(&bytes, 64),
        params,
    })
}

// The 32 bytes from `at` on.
fn part(bytes: &[u8; 96], at: usize) -> [u8; 32]
    requires { at ≤ 64 }
    ensures { result ≡ third at bytes.now }
{
    let mut part = [0u8; 32];
    part.copy_from_slice(&bytes[at..at + 32]);
    part
}
