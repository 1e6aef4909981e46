// The words of a key (FIPS 197, 5.2), and those of the inverse cipher.
ghost use Rattle.std.specs.Prelude.{◌≡◌, ◌<◌, ◌≤◌};
ghost use Rattle.std.specs.Int.{w32, to_be_bytes};
ghost use Rattle.sn_aes.specs.Inverse.{inverse_mix_bytes, AreInverseKeys};
ghost use Rattle.sn_aes.specs.Cipher.{sub_word, added_word, expanded};

use crate::bytes::{byte0, byte1, byte2, byte3};
use crate::substitution::{
    inverse_table0, inverse_table1, inverse_table2, inverse_table3, substitute,
};
use crate::tables::ROUND_CONSTANTS;

// SUBWORD: the S-box on each byte.
pub fn sub_word(w: u32) -> u32
    ensures { result ≡ sub_word w }
{
    u32::from_be_bytes([
        substitute(byte0(w)),
        substitute(byte1(w)),
        substitute(byte2(w)),
        substitute(byte3(w)),
    ])
}

// What is added to the word 8 before word `i`, from the word before.
pub fn added_word(last: u32, i: usize) -> u32
    requires { (8 ≤ i) × (i < 60) }
    ensures { result ≡ added_word last i }
{
    if i % 8 == 0 {
        sub_word(last.rotate_left(8)) ^ ROUND_CONSTANTS[i / 8 - 1]
    } else if i % 8 == 4 {
        sub_word(last)
    } else {
        last
    }
}

// KEYEXPANSION: the words of all 15 round keys.
pub fn expand(key: &[u8; 32]) -> [u32; 60]
    ensures { result ≡ expanded key.now 52 }
{
    let mut words = [0u32; 60];
    'first: for i in 0..8 {
        words[i] = u32::from_be_bytes([key[4 * i], key[4 * i + 1], key[4 * i + 2], key[4 * i + 3]]);
    }
    'next: for i in 8..60 {
        words[i] = words[i - 8] ^ added_word(words[i - 1], i);
    }
    words
}

// INVMIXCOLUMNS of a word.
pub fn inverse_mix_word(w: u32) -> u32
    ensures { to_be_bytes w32 result ≡ inverse_mix_bytes (to_be_bytes w32 w) }
{
    inverse_table0(substitute(byte0(w)) as usize)
        ^ inverse_table1(substitute(byte1(w)) as usize)
        ^ inverse_table2(substitute(byte2(w)) as usize)
        ^ inverse_table3(substitute(byte3(w)) as usize)
}

// The inverse cipher's keys: INVMIXCOLUMNS of each but the first and the last.
pub fn inverse_mixed(keys: &[u32; 60]) -> [u32; 60]
    ensures { AreInverseKeys keys.now result }
{
    let mut words = *keys;
    'inner: for i in 4..56 {
        words[i] = inverse_mix_word(keys[i]);
    }
    words
}
