//! PBKDF2-HMAC-SHA-512.

ghost use Rattle.std.specs.Prelude.{◌≡◌, ◌≤◌};
ghost use Rattle.sn_pbkdf.specs.Pbkdf.{pbkdf2};

use sn_pbkdf::derive96;

/// Writes the key of 96 bytes that is derived from a password.
#[unsafe(no_mangle)]
pub extern "C" fn sn_bench_derive96(password: &[u8], salt: &[u8], cost: u32, derived: &mut [u8; 96])
    requires { 1 ≤ cost }
    ensures { derived.new ≡ pbkdf2 password.now salt.now cost 96 }
{
    *derived = derive96(password, salt, cost);
}
