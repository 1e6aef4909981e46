// Sealing and opening whole texts.
ghost use Rattle.std.specs.Prelude.{◌≡◌, ◌%◌, ◌↔◌, ◌+◌, ◌≤◌, IsTrue, ℕ, List, length, IfOk, IsErrOf, IsOk};
ghost use Rattle.std.specs.Vec.{vec_len, vec_capacity};
ghost use Rattle.sn_cbc.specs.Cbc.{IsCbc, IsWhole, IsChained, AreBytes};

use crate::CbcError;
use crate::chain::{decrypt, encrypt};
use crate::padding::{padded_text, padding_of};
use sn_aes::{Aes256Dec, Aes256Enc};
use std::alloc::{AllocError, Global};

/// The ciphertext of a plain text, which has 1 to 16 bytes more.
pub fn seal(
    alloc: Global,
    key: &[u8; 32],
    iv: &[u8; 16],
    plain: &[u8],
) -> Result<Vec<u8>, AllocError>
    ensures { IfOk result (λ bytes. IsCbc key.now iv.now plain.now bytes.items) }
{
    let mut owned = Vec::with_capacity(alloc, plain.len() + 16)?;
    owned.extend_from_slice(plain)?;
    seal_owned(key, iv, owned)
}

/// The ciphertext of a plain text, in its place. Takes no memory where there is room for 16 bytes more.
pub fn seal_owned(key: &[u8; 32], iv: &[u8; 16], plain: Vec<u8>) -> Result<Vec<u8>, AllocError>
    ensures ciphertext { IfOk result (λ bytes. IsCbc key.now iv.now plain.items bytes.items) }
    ensures room { vec_len plain + 16 ≤ vec_capacity plain → IsOk result }
{
    let mut text = padded_text(plain)?;
    encrypt(&Aes256Enc::new(key), iv, text.as_mut_slice());
    Ok(text)
}

/// The plain text of a ciphertext.
pub fn unseal(
    alloc: Global,
    key: &[u8; 32],
    iv: &[u8; 16],
    bytes: &[u8],
) -> Result<Vec<u8>, CbcError>
    ensures ok { IfOk result (λ plain. IsCbc key.now iv.now plain.items bytes.now) }
    ensures length { (n : ℕ) → IsErrOf result (CbcError.Length n) → (n ≡ length bytes.now) × ¬ (IsWhole bytes.now) }
    ensures whole { ¬ (IsWhole bytes.now) → result ≡ Err (CbcError.Length (length bytes.now)) }
    ensures padding { IsErrOf result CbcError.Padding → IsWhole bytes.now
        × ((plain : List ℕ) → AreBytes plain → ¬ (IsCbc key.now iv.now plain bytes.now)) }
{
    if !is_whole(bytes) {
        return Err(CbcError::Length {
            length: bytes.len(),
        });
    }
    let owned = Vec::from_slice(alloc, bytes)?;
    unseal_owned(key, iv, owned)
}

/// The plain text of a ciphertext, in its place. Takes no memory.
pub fn unseal_owned(key: &[u8; 32], iv: &[u8; 16], bytes: Vec<u8>) -> Result<Vec<u8>, CbcError>
    ensures ok { IfOk result (λ plain. IsCbc key.now iv.now plain.items bytes.items) }
    ensures length { (n : ℕ) → IsErrOf result (CbcError.Length n) → (n ≡ length bytes.items) × ¬ (IsWhole bytes.items) }
    ensures whole { ¬ (IsWhole bytes.items) → result ≡ Err (CbcError.Length (length bytes.items)) }
    ensures padding { IsErrOf result CbcError.Padding → IsWhole bytes.items
        × ((plain : List ℕ) → AreBytes plain → ¬ (IsCbc key.now iv.now plain bytes.items)) }
    ensures no_memory { ¬ (IsErrOf result CbcError.Memory) }
{
    let length = bytes.len();
    if !is_whole(&bytes) {
        return Err(CbcError::Length { length });
    }
    let mut text = decrypted(key, iv, bytes);
    match padding_of(&text) {
        Some(count) => {
            text.truncate(length - count);
            Ok(text)
        }
        None => Err(CbcError::Padding),
    }
}

// The text under a ciphertext of whole blocks, with its padding.
fn decrypted(key: &[u8; 32], iv: &[u8; 16], bytes: Vec<u8>) -> Vec<u8>
    requires { length bytes.items % 16 ≡ 0 }
    ensures { IsChained key.now iv.now result.items bytes.items }
{
    let mut text = bytes;
    decrypt(&Aes256Dec::new(key), iv, text.as_mut_slice());
    text
}

// Whether a ciphertext has a block or more, and whole ones alone.
fn is_whole(bytes: &[u8]) -> bool
    ensures whole { IsTrue result ↔ IsWhole bytes.now }
    ensures bytes { AreBytes bytes.now }
{
    !bytes.is_empty() && bytes.len() % 16 == 0
}
