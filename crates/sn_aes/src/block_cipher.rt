// The cipher and its inverse on one block.
ghost use Rattle.std.specs.Prelude.{◌≡◌, ℕ, List};
ghost use Rattle.sn_aes.specs.Inverse.{AreInverseKeys};
ghost use Rattle.sn_aes.specs.Cipher.{IsBlock, expanded, aes256, four_words};

use crate::bytes::{block_of_columns, columns_of_block};
use crate::decryption::decrypt_words;
use crate::encryption::encrypt_words;
use crate::key_schedule::{expand, inverse_mixed};
use std::marker::Model;

/// A key, expanded for the cipher alone. A contract sees it as the key.
#[derive(Drop)]
pub struct Aes256Enc {
    key: [u8; 32],
    keys: [u32; 60],
}

impl Model for Aes256Enc {
    ghost Value = { List ℕ };

    ghost view = { λ a. a.key };

    ghost invariant = { λ a. a.keys ≡ expanded a.key 52 };
}

impl Aes256Enc {
    /// The cipher under `key`.
    pub fn new(key: &[u8; 32]) -> Aes256Enc
        ensures { result ≡ key.now }
    {
        Aes256Enc {
            key: *key,
            keys: expand(key),
        }
    }

    /// The cipher's block of `block`.
    pub fn encrypt(&self, block: &[u8; 16]) -> [u8; 16]
        ensures { result ≡ aes256 self.now block.now }
    {
        block_of_columns(self.encrypt_columns(columns_of_block(block)))
    }

    /// The cipher's block of the block of these columns, by its columns.
    #[inline(always)]
    pub fn encrypt_columns(&self, columns: [u32; 4]) -> [u32; 4]
        ensures { four_words result 0 ≡ aes256 self.now (four_words columns 0) }
    {
        encrypt_words(columns, &self.keys)
    }
}

/// A key, expanded for the inverse cipher alone. A contract sees it as the key.
#[derive(Drop)]
pub struct Aes256Dec {
    key: [u8; 32],
    keys: [u32; 60],
}

impl Model for Aes256Dec {
    ghost Value = { List ℕ };

    ghost view = { λ a. a.key };

    ghost invariant = { λ a. AreInverseKeys (expanded a.key 52) a.keys };
}

impl Aes256Dec {
    /// The inverse cipher under `key`.
    pub fn new(key: &[u8; 32]) -> Aes256Dec
        ensures { result ≡ key.now }
    {
        Aes256Dec {
            key: *key,
            keys: inverse_mixed(&expand(key)),
        }
    }

    /// The one block that the cipher takes to `block`.
    pub fn decrypt(&self, block: &[u8; 16]) -> [u8; 16]
        ensures block { aes256 self.now result ≡ block.now }
        ensures only { (b : List ℕ) → IsBlock b → aes256 self.now b ≡ block.now → b ≡ result }
    {
        block_of_columns(self.decrypt_columns(columns_of_block(block)))
    }

    /// The one block that the cipher takes to the block of these columns, by its columns.
    #[inline(always)]
    pub fn decrypt_columns(&self, columns: [u32; 4]) -> [u32; 4]
        ensures block { aes256 self.now (four_words result 0) ≡ four_words columns 0 }
        ensures only { (b : List ℕ) → IsBlock b → aes256 self.now b ≡ four_words columns 0 → b ≡ four_words result 0 }
    {
        decrypt_words(columns, &self.keys)
    }
}
