//! HMAC-SHA-512.

ghost use Rattle.std.specs.Prelude.{◌≡◌, ℕ, List, [], ◌++◌};
ghost use Rattle.sha2.specs.Sha512.{sha512};
ghost use Rattle.sn_hmac.specs.Hmac.{block_key, hmac_sha512};
ghost use Rattle.sn_hmac.specs.Macs.{HoldsMac512};

use crate::blocks::{filled, masked};
use sha2::{Digest, Sha512};

/// An HMAC-SHA-512 of a text that comes piece by piece.
///
/// It keeps the hash states after the key's two blocks, so a copy of a begun one computes neither again.
#[derive(Drop)]
pub struct Mac512 {
    inner: Sha512,
    outer: Sha512,
}

fn block_key(key: &[u8]) -> [u8; 128]
    ensures { result ≡ block_key sha512 128 key.now }
{
    if key.len() > 128 {
        filled(&Sha512::digest(key))
    } else {
        filled(key)
    }
}

// The hasher has no `Copy`, and its `clone` never fails.
fn copy_of(hasher: &Sha512) -> Sha512
    ensures { result ≡ hasher.now }
{
    match hasher.clone() {
        Ok(copy) => copy,
        Err(_) => unreachable!(),
    }
}

impl Mac512 {
    /// Begins with this key, of any length, and the empty text.
    #[tactic(auto, unfolding(crate::specs::Macs::HoldsMac512, crate::specs::Hmac::hmac_sha512))]
    pub fn new(key: &[u8]) -> Mac512
        ensures { HoldsMac512 result key.now [] }
    {
        let block = block_key(key);
        let mut inner = Sha512::new();
        inner.update(&masked(&block, 0x36));
        let mut outer = Sha512::new();
        outer.update(&masked(&block, 0x5c));
        Mac512 { inner, outer }
    }

    /// Adds `piece` at the end of the text.
    #[tactic(auto, unfolding(crate::specs::Macs::HoldsMac512, crate::specs::Hmac::hmac_sha512))]
    pub fn update(&mut self, piece: &[u8])
        ensures { (key text : List ℕ) → HoldsMac512 self.old key text → HoldsMac512 self.new key (text ++ piece.now) }
    {
        self.inner.update(piece);
    }

    /// The HMAC of the text.
    #[tactic(auto, unfolding(crate::specs::Macs::HoldsMac512, crate::specs::Hmac::hmac_sha512))]
    pub fn finish(self) -> [u8; 64]
        ensures { (key text : List ℕ) → HoldsMac512 self key text → result ≡ hmac_sha512 key text }
    {
        let Mac512 { inner, mut outer } = self;
        outer.update(&inner.finalize());
        outer.finalize()
    }

    /// Another that was begun with the same key and has taken the same text.
    pub fn copy(&self) -> Mac512
        ensures { result ≡ self.now }
    {
        Mac512 {
            inner: copy_of(&self.inner),
            outer: copy_of(&self.outer),
        }
    }
}

/// The HMAC-SHA-512 of `text` under `key`.
pub fn hmac_sha512(key: &[u8], text: &[u8]) -> [u8; 64]
    ensures { result ≡ hmac_sha512 key.now text.now }
{
    let mut mac = Mac512::new(key);
    mac.update(text);
    mac.finish()
}
