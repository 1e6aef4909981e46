// The rounds of the inverse cipher on four words, with keys of its own (FIPS 197, 5.3.5).
ghost use Rattle.std.specs.Prelude.{◌≡◌, ℕ, List, [], ◌∷◌, ◌<◌, ◌+◌};
ghost use Rattle.std.specs.Int.{w32, byte_at, to_be_bytes};
ghost use Rattle.sn_aes.specs.Inverse.{inverse_sbox, inverse_sub_bytes, inverse_shift_rows, inverse_mix_column, inverse_round, inverse_rounds, inverse_cipher};
ghost use Rattle.sn_aes.specs.Cipher.{xor_bytes, four_words, add_round_key};

use crate::bytes::{byte0, byte1, byte2, byte3};
use crate::encryption::add_words;
use crate::substitution::{
    inverse_last_table0, inverse_last_table1, inverse_last_table2, inverse_last_table3,
    inverse_table0, inverse_table1, inverse_table2, inverse_table3,
};

// The column that a, b, c and d give after INVSHIFTROWS.
#[inline(always)]
pub fn inverse_column(a: u32, b: u32, c: u32, d: u32, key: u32) -> u32
    ensures { to_be_bytes w32 result ≡ xor_bytes
        (inverse_mix_column (inverse_sbox (byte_at 3 a)) (inverse_sbox (byte_at 2 b)) (inverse_sbox (byte_at 1 c)) (inverse_sbox (byte_at 0 d)))
        (to_be_bytes w32 key) }
{
    inverse_table0(byte0(a))
        ^ inverse_table1(byte1(b))
        ^ inverse_table2(byte2(c))
        ^ inverse_table3(byte3(d))
        ^ key
}

// A round of the inverse cipher, with key `r` of its own keys.
#[inline(always)]
pub fn inverse_round(s: [u32; 4], keys: &[u32; 60], r: usize) -> [u32; 4]
    requires { r < 15 }
    ensures { four_words result 0 ≡ add_round_key keys.now (inverse_round (four_words s 0)) r }
{
    let [a, b, c, d] = s;
    [
        inverse_column(a, d, c, b, keys[4 * r]),
        inverse_column(b, a, d, c, keys[4 * r + 1]),
        inverse_column(c, b, a, d, keys[4 * r + 2]),
        inverse_column(d, c, b, a, keys[4 * r + 3]),
    ]
}

// The column in the last round, which has no INVMIXCOLUMNS.
#[inline(always)]
pub fn inverse_last_column(a: u32, b: u32, c: u32, d: u32, key: u32) -> u32
    ensures { to_be_bytes w32 result ≡ xor_bytes
        (inverse_sbox (byte_at 3 a) ∷ inverse_sbox (byte_at 2 b) ∷ inverse_sbox (byte_at 1 c) ∷ inverse_sbox (byte_at 0 d) ∷ [])
        (to_be_bytes w32 key) }
{
    inverse_last_table0(byte0(a))
        ^ inverse_last_table1(byte1(b))
        ^ inverse_last_table2(byte2(c))
        ^ inverse_last_table3(byte3(d))
        ^ key
}

// The last round, whose key is the cipher's first.
#[inline(always)]
pub fn inverse_last_round(s: [u32; 4], keys: &[u32; 60]) -> [u32; 4]
    ensures { four_words result 0 ≡ add_round_key keys.now (inverse_shift_rows (inverse_sub_bytes (four_words s 0))) 0 }
{
    let [a, b, c, d] = s;
    [
        inverse_last_column(a, d, c, b, keys[0]),
        inverse_last_column(b, a, d, c, keys[1]),
        inverse_last_column(c, b, a, d, keys[2]),
        inverse_last_column(d, c, b, a, keys[3]),
    ]
}

// The inverse cipher's rounds `n + 1` to `n + 4`.
#[inline(always)]
pub fn four_inverse_rounds(s: [u32; 4], keys: &[u32; 60], n: usize) -> [u32; 4]
    requires { n + 4 < 14 }
    ensures { (b : List ℕ) → four_words s 0 ≡ inverse_rounds keys.now b n → four_words result 0 ≡ inverse_rounds keys.now b (n + 4) }
{
    let s = inverse_round(s, keys, 13 - n);
    let s = inverse_round(s, keys, 12 - n);
    let s = inverse_round(s, keys, 11 - n);
    inverse_round(s, keys, 10 - n)
}

// EQINVCIPHER, on the words of a block.
#[inline(always)]
pub fn decrypt_words(s: [u32; 4], keys: &[u32; 60]) -> [u32; 4]
    ensures { four_words result 0 ≡ inverse_cipher keys.now (four_words s 0) }
{
    let s = add_words(s, keys, 14);
    let s = four_inverse_rounds(s, keys, 0);
    let s = four_inverse_rounds(s, keys, 4);
    let s = four_inverse_rounds(s, keys, 8);
    let s = inverse_round(s, keys, 1);
    inverse_last_round(s, keys)
}
