// The rounds of the cipher on four words (FIPS 197, 5.1).
ghost use Rattle.std.specs.Prelude.{◌≡◌, ℕ, List, [], ◌∷◌, ◌<◌, ◌+◌};
ghost use Rattle.std.specs.Int.{w32, byte_at, to_be_bytes};
ghost use Rattle.sn_aes.specs.Cipher.{sbox, mix_column, xor_bytes, four_words, round, rounds, add_round_key, cipher, sub_bytes, shift_rows};

use crate::bytes::{byte0, byte1, byte2, byte3};
use crate::substitution::{
    last_table0, last_table1, last_table2, last_table3, table0, table1, table2, table3,
};

// The column that a, b, c and d give after SHIFTROWS.
#[inline(always)]
pub fn column(a: u32, b: u32, c: u32, d: u32, key: u32) -> u32
    ensures { to_be_bytes w32 result ≡ xor_bytes
        (mix_column (sbox (byte_at 3 a)) (sbox (byte_at 2 b)) (sbox (byte_at 1 c)) (sbox (byte_at 0 d)))
        (to_be_bytes w32 key) }
{
    table0(byte0(a)) ^ table1(byte1(b)) ^ table2(byte2(c)) ^ table3(byte3(d)) ^ key
}

// Round `r`, with the round's key.
#[inline(always)]
pub fn round(s: [u32; 4], keys: &[u32; 60], r: usize) -> [u32; 4]
    requires { r < 15 }
    ensures { four_words result 0 ≡ add_round_key keys.now (round (four_words s 0)) r }
{
    let [a, b, c, d] = s;
    [
        column(a, b, c, d, keys[4 * r]),
        column(b, c, d, a, keys[4 * r + 1]),
        column(c, d, a, b, keys[4 * r + 2]),
        column(d, a, b, c, keys[4 * r + 3]),
    ]
}

// The column in the last round, which has no MIXCOLUMNS.
#[inline(always)]
pub fn last_column(a: u32, b: u32, c: u32, d: u32, key: u32) -> u32
    ensures { to_be_bytes w32 result ≡ xor_bytes
        (sbox (byte_at 3 a) ∷ sbox (byte_at 2 b) ∷ sbox (byte_at 1 c) ∷ sbox (byte_at 0 d) ∷ [])
        (to_be_bytes w32 key) }
{
    last_table0(byte0(a))
        ^ last_table1(byte1(b))
        ^ last_table2(byte2(c))
        ^ last_table3(byte3(d))
        ^ key
}

// Round 14, with its key.
#[inline(always)]
pub fn last_round(s: [u32; 4], keys: &[u32; 60]) -> [u32; 4]
    ensures { four_words result 0 ≡ add_round_key keys.now (shift_rows (sub_bytes (four_words s 0))) 14 }
{
    let [a, b, c, d] = s;
    [
        last_column(a, b, c, d, keys[56]),
        last_column(b, c, d, a, keys[57]),
        last_column(c, d, a, b, keys[58]),
        last_column(d, a, b, c, keys[59]),
    ]
}

// ADDROUNDKEY of round `r`.
#[inline(always)]
pub fn add_words(s: [u32; 4], keys: &[u32; 60], r: usize) -> [u32; 4]
    requires { r < 15 }
    ensures { four_words result 0 ≡ add_round_key keys.now (four_words s 0) r }
{
    let [a, b, c, d] = s;
    [
        a ^ keys[4 * r],
        b ^ keys[4 * r + 1],
        c ^ keys[4 * r + 2],
        d ^ keys[4 * r + 3],
    ]
}

// Rounds `n + 1` to `n + 4`. The rounds are written out, since LLVM makes a loop over them slower.
#[inline(always)]
pub fn four_rounds(s: [u32; 4], keys: &[u32; 60], n: usize) -> [u32; 4]
    requires { n + 4 < 15 }
    ensures { (b : List ℕ) → four_words s 0 ≡ rounds keys.now b n → four_words result 0 ≡ rounds keys.now b (n + 4) }
{
    let s = round(s, keys, n + 1);
    let s = round(s, keys, n + 2);
    let s = round(s, keys, n + 3);
    round(s, keys, n + 4)
}

// CIPHER, on the words of a block.
#[inline(always)]
pub fn encrypt_words(s: [u32; 4], keys: &[u32; 60]) -> [u32; 4]
    ensures { four_words result 0 ≡ cipher keys.now (four_words s 0) }
{
    let s = add_words(s, keys, 0);
    let s = four_rounds(s, keys, 0);
    let s = four_rounds(s, keys, 4);
    let s = four_rounds(s, keys, 8);
    let s = round(s, keys, 13);
    last_round(s, keys)
}
