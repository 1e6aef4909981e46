//! AES-256 in CBC mode.

ghost use Rattle.std.specs.Prelude.{◌≡◌, ℕ, List, IsTrue};
ghost use Rattle.sn_cbc.specs.Cbc.{IsCbc};
ghost use Rattle.sn_bench.specs.Texts.{with_end_of};

use sn_cbc::{seal, unseal};
use std::alloc::Global;

// Writes the last 16 bytes of a text that has as many.
fn put_end(text: &[u8], end: &mut [u8; 16])
    ensures { end.new ≡ with_end_of text.now end.old }
{
    if text.len() >= 16 {
        end.copy_from_slice(&text[text.len() - 16..]);
    }
}

/// Seals `plain` and writes the ciphertext's last block. False where memory runs out.
#[unsafe(no_mangle)]
pub extern "C" fn sn_bench_seal(
    alloc: Global,
    key: &[u8; 32],
    iv: &[u8; 16],
    plain: &[u8],
    end: &mut [u8; 16],
) -> bool
    ensures { IsTrue result
        → (bytes : List ℕ) × IsCbc key.now iv.now plain.now bytes × (end.new ≡ with_end_of bytes end.old) }
{
    match seal(alloc, key, iv, plain) {
        Ok(bytes) => {
            put_end(&bytes, end);
            true
        }
        Err(_) => false,
    }
}

/// Opens `bytes` and writes the last 16 bytes of the plain text. False where memory runs out or they do not open.
#[unsafe(no_mangle)]
pub extern "C" fn sn_bench_unseal(
    alloc: Global,
    key: &[u8; 32],
    iv: &[u8; 16],
    bytes: &[u8],
    end: &mut [u8; 16],
) -> bool
    ensures { IsTrue result
        → (plain : List ℕ) × IsCbc key.now iv.now plain bytes.now × (end.new ≡ with_end_of plain end.old) }
{
    match unseal(alloc, key, iv, bytes) {
        Ok(plain) => {
            put_end(&plain, end);
            true
        }
        Err(_) => false,
    }
}
