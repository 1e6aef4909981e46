// The words that a seed gives.
ghost use Rattle.std.specs.Prelude.{◌≡◌, ℕ, List};
ghost use Rattle.rand_chacha.specs.ChaCha.{of_seed};
ghost use Rattle.sn_items.specs.Draws.{drawn, as_version_4};

use rand_chacha::ChaCha20Rng;
use rand_core::SeedableRng;
use rand_core::utils::fill_bytes_via_u32;
use std::marker::Model;
use uuid::{Builder, Uuid};

/// The words of one seed's ChaCha20 stream, drawn from its start, in order. No draw takes memory.
#[derive(Drop)]
pub struct Words {
    stream: ChaCha20Rng,
}

impl Model for Words {
    ghost use Rattle.rand_chacha.specs.ChaCha.{ChaCha};

    ghost Value = { ChaCha };

    ghost view = { λ words. words.stream };
}

impl Words {
    /// The words of this seed, none of them drawn.
    pub fn from_seed(seed: [u8; 32]) -> Words
        ensures { result ≡ of_seed seed }
    {
        Words {
            stream: ChaCha20Rng::from_seed(seed),
        }
    }

    /// An initialization vector: four words.
    pub fn iv(&mut self) -> [u8; 16]
        ensures { (result, self.new) ≡ drawn 16 self.old }
    {
        let mut bytes = [0u8; 16];
        fill_bytes_via_u32(&mut self.stream, &mut bytes);
        bytes
    }

    /// The 64 bytes of an item's key: sixteen words.
    pub fn item_key(&mut self) -> [u8; 64]
        ensures { (result, self.new) ≡ drawn 64 self.old }
    {
        let mut bytes = [0u8; 64];
        fill_bytes_via_u32(&mut self.stream, &mut bytes);
        bytes
    }

    /// A uuid of version 4 (RFC 9562, 5.4): four words.
    pub fn uuid(&mut self) -> Uuid
        ensures { (bytes : List ℕ) × ((bytes, self.new) ≡ drawn 16 self.old) × (result ≡ as_version_4 bytes) }
    {
        Builder::from_random_bytes(self.iv()).into_uuid()
    }

    /// The 32 bytes of a nonce: eight words.
    pub fn nonce(&mut self) -> [u8; 32]
        ensures { (result, self.new) ≡ drawn 32 self.old }
    {
        let mut bytes = [0u8; 32];
        fill_bytes_via_u32(&mut self.stream, &mut bytes);
        bytes
    }

    /// The 32 bytes of a server's secret: eight words.
    pub fn secret(&mut self) -> [u8; 32]
        ensures { (result, self.new) ≡ drawn 32 self.old }
    {
        self.nonce()
    }
}
