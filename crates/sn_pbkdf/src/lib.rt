//! PBKDF2 (RFC 8018, 5.2) with HMAC-SHA-512, for keys of 96 bytes.
#![tactic(auto)]

ghost use Rattle.std.specs.Prelude.{◌≡◌, ℕ, List, [], ◌++◌, ◌<◌, ◌≤◌, take, slice_index};
ghost use Rattle.std.specs.Int.{w32, to_be_bytes};
ghost use Rattle.sn_hmac.specs.Hmac.{hmac_sha512};
ghost use Rattle.sn_hmac.specs.Macs.{HoldsMac512};
ghost use Rattle.sn_pbkdf.specs.Pbkdf.{xor_bytes, key_block, pbkdf2};

use sn_hmac::Mac512;

// `block`, with each byte of `other` xored into its own.
#[tactic(auto, using(crate::proofs::BlockLemmas::xor_more))]
fn xor_into(block: &mut [u8; 64], other: &[u8; 64])
    ensures { block.new ≡ xor_bytes block.old other.now }
{
    'bytes: for i in 0..64 {
        block[i] ^= other[i];
    }
}

// The HMAC of `text` under the key that `begun` was begun with.
fn hmac_of(begun: &Mac512, text: &[u8]) -> [u8; 64]
    ensures { (key : List ℕ) → HoldsMac512 begun.now key [] → result ≡ hmac_sha512 key text.now }
{
    let mut mac = begun.copy();
    mac.update(text);
    mac.finish()
}

// U_1 of the block with this number.
fn first_iterate(begun: &Mac512, salt: &[u8], number: u32) -> [u8; 64]
    ensures { (password : List ℕ) → HoldsMac512 begun.now password []
        → result ≡ hmac_sha512 password (salt.now ++ to_be_bytes w32 number) }
{
    let mut mac = begun.copy();
    mac.update(salt);
    mac.update(&number.to_be_bytes());
    mac.finish()
}

#[tactic(auto, using(crate::proofs::BlockLemmas::block_steps))]
fn key_block(begun: &Mac512, salt: &[u8], cost: u32, number: u32) -> [u8; 64]
    requires { 1 ≤ cost }
    ensures { (password : List ℕ) → HoldsMac512 begun.now password []
        → result ≡ key_block password salt.now cost number }
{
    let mut last = first_iterate(begun, salt, number);
    let mut block = last;
    'iterates: for _done in 1..cost {
        let next = hmac_of(begun, &last);
        last = next;
        xor_into(&mut block, &last);
    }
    block
}

// Byte `i` of the two blocks.
fn byte_of(first: &[u8; 64], second: &[u8; 64], i: usize) -> u8
    requires { i < 128 }
    ensures { result ≡ slice_index (first.now ++ second.now) i }
{
    if i < 64 { first[i] } else { second[i - 64] }
}

fn joined(first: &[u8; 64], second: &[u8; 64]) -> [u8; 96]
    ensures { result ≡ take 96 (first.now ++ second.now) }
{
    let mut key = [0u8; 96];
    'bytes: for i in 0..96 {
        key[i] = byte_of(first, second, i);
    }
    key
}

/// The key of 96 bytes that PBKDF2-HMAC-SHA-512 derives with `cost` iterations.
///
/// An iteration costs two compressions of SHA-512 for each of the two blocks, however long the password is.
#[tactic(auto, unfolding(crate::specs::Pbkdf::pbkdf2))]
pub fn derive96(password: &[u8], salt: &[u8], cost: u32) -> [u8; 96]
    requires { 1 ≤ cost }
    ensures { result ≡ pbkdf2 password.now salt.now cost 96 }
{
    let begun = Mac512::new(password);
    let first = key_block(&begun, salt, cost, 1);
    let second = key_block(&begun, salt, cost, 2);
    joined(&first, &second)
}
