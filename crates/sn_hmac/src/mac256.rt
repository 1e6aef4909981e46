//! HMAC-SHA-256.

ghost use Rattle.std.specs.Prelude.{◌≡◌, ℕ, List, [], ◌++◌};
ghost use Rattle.sha2.specs.Sha256.{sha256};
ghost use Rattle.sn_hmac.specs.Hmac.{block_key, hmac_sha256};
ghost use Rattle.sn_hmac.specs.Macs.{HoldsMac256};

use crate::blocks::{filled, masked};
use sha2::{Digest, Sha256};

/// An HMAC-SHA-256 of a text that comes piece by piece.
///
/// It keeps the hash states after the key's two blocks, so a copy of a begun one computes neither again.
#[derive(Drop)]
pub struct Mac256 {
    inner: Sha256,
    outer: Sha256,
}

fn block_key(key: &[u8]) -> [u8; 64]
    ensures { result ≡ block_key sha256 64 key.now }
{
    if key.len() > 64 {
        filled(&Sha256::digest(key))
    } else {
        filled(key)
    }
}

// The hasher has no `Copy`, and its `clone` never fails.
fn copy_of(hasher: &Sha256) -> Sha256
    ensures { result ≡ hasher.now }
{
    match hasher.clone() {
        Ok(copy) => copy,
        Err(_) => unreachable!(),
    }
}

impl Mac256 {
    /// Begins with this key, of any length, and the empty text.
    #[tactic(auto, unfolding(crate::specs::Macs::HoldsMac256, crate::specs::Hmac::hmac_sha256))]
    pub fn new(key: &[u8]) -> Mac256
        ensures { HoldsMac256 result key.now [] }
    {
        let block = block_key(key);
        let mut inner = Sha256::new();
        inner.update(&masked(&block, 0x36));
        let mut outer = Sha256::new();
        outer.update(&masked(&block, 0x5c));
        Mac256 { inner, outer }
    }

    /// Adds `piece` at the end of the text.
    #[tactic(auto, unfolding(crate::specs::Macs::HoldsMac256, crate::specs::Hmac::hmac_sha256))]
    pub fn update(&mut self, piece: &[u8])
        ensures { (key text : List ℕ) → HoldsMac256 self.old key text → HoldsMac256 self.new key (text ++ piece.now) }
    {
        self.inner.update(piece);
    }

    /// The HMAC of the text.
    #[tactic(auto, unfolding(crate::specs::Macs::HoldsMac256, crate::specs::Hmac::hmac_sha256))]
    pub fn finish(self) -> [u8; 32]
        ensures { (key text : List ℕ) → HoldsMac256 self key text → result ≡ hmac_sha256 key text }
    {
        let Mac256 { inner, mut outer } = self;
        outer.update(&inner.finalize());
        outer.finalize()
    }

    /// Another that was begun with the same key and has taken the same text.
    pub fn copy(&self) -> Mac256
        ensures { result ≡ self.now }
    {
        Mac256 {
            inner: copy_of(&self.inner),
            outer: copy_of(&self.outer),
        }
    }
}

/// The HMAC-SHA-256 of `text` under `key`.
pub fn hmac_sha256(key: &[u8], text: &[u8]) -> [u8; 32]
    ensures { result ≡ hmac_sha256 key.now text.now }
{
    let mut mac = Mac256::new(key);
    mac.update(text);
    mac.finish()
}
