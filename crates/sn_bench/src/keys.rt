//! The keys that a password gives, the salt of auth parameters, and the check value of a server's password.

ghost use Rattle.std.specs.Prelude.{◌≡◌, IsTrue, IfSome};
ghost use Rattle.sn_keys.specs.Keys.{AreKeysOf, check_value, salt};
ghost use Rattle.sn_string.specs.declared.params.KeySet.{KeySet};
ghost use Rattle.sn_string.specs.declared.params.Params.{Params};
ghost use Rattle.sn_bench.specs.Given.{HasParts};

use sn_keys::{check_of, derive, salt_of};
use sn_string::{KeySet, Params, Text};
use std::alloc::Global;

pub(crate) fn text_of(bytes: &[u8]) -> Option<&str>
    ensures { IfSome result (λ text. text.now ≡ bytes.now) }
{
    match str::from_utf8(bytes) {
        Ok(text) => Some(text),
        Err(_) => None,
    }
}

// The parameters of these parts. None where a part is out of its bounds, a text isn't UTF-8, or memory was wanting.
fn params_of(alloc: Global, identifier: &[u8], cost: u32, nonce: &[u8]) -> Option<Params>
    ensures { IfSome result (λ p. HasParts identifier.now cost nonce.now p) }
{
    let identifier = Text::of(alloc, text_of(identifier)?).ok()?;
    let nonce = Text::of(alloc, text_of(nonce)?).ok()?;
    Params::new(identifier, cost, nonce)
}

// The keys of a password under the parameters of these parts. None as above.
fn keys_of(
    alloc: Global,
    password: &[u8],
    identifier: &[u8],
    cost: u32,
    nonce: &[u8],
) -> Option<KeySet>
    ensures { IfSome result (λ set. (p : Params) × HasParts identifier.now cost nonce.now p × AreKeysOf password.now p set) }
{
    let params = params_of(alloc, identifier, cost, nonce)?;
    let password = text_of(password)?;
    match derive(alloc, password, &params) {
        Ok(set) => Some(set),
        Err(_) => None,
    }
}

/// Writes the server's password, the master key and the authentication key of a password under parameters. False where
/// a part is out of its bounds, a text isn't UTF-8, or memory was wanting.
#[unsafe(no_mangle)]
pub extern "C" fn sn_bench_derive(
    alloc: Global,
    password: &[u8],
    identifier: &[u8],
    cost: u32,
    nonce: &[u8],
    pw: &mut [u8; 32],
    mk: &mut [u8; 32],
    ak: &mut [u8; 32],
) -> bool
    ensures { IsTrue result → (p : Params) × (set : KeySet) × HasParts identifier.now cost nonce.now p
        × AreKeysOf password.now p set × (pw.new ≡ set.pw) × (mk.new ≡ set.mk) × (ak.new ≡ set.ak) }
{
    match keys_of(alloc, password, identifier, cost, nonce) {
        Some(set) => {
            pw.copy_from_slice(&set.pw);
            mk.copy_from_slice(&set.mk);
            ak.copy_from_slice(&set.ak);
            true
        }
        None => false,
    }
}

/// Writes the salt of parameters. False where a part is out of its bounds, a text isn't UTF-8, or memory was wanting.
#[unsafe(no_mangle)]
pub extern "C" fn sn_bench_salt(
    alloc: Global,
    identifier: &[u8],
    cost: u32,
    nonce: &[u8],
    digits: &mut [u8; 64],
) -> bool
    ensures { IsTrue result → (p : Params) × HasParts identifier.now cost nonce.now p × (digits.new ≡ salt p) }
{
    match params_of(alloc, identifier, cost, nonce) {
        Some(params) => {
            *digits = salt_of(&params);
            true
        }
        None => false,
    }
}

/// Writes the check value of a server's password.
#[unsafe(no_mangle)]
pub extern "C" fn sn_bench_check(pw: &[u8; 32], check: &mut [u8; 32])
    ensures { check.new ≡ check_value pw.now }
{
    *check = check_of(pw);
}
