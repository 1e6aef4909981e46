// The S-boxes and the columns that they add, looked up in tables. The four rows of a column stand in one table, since
// the compiled code then needs one register for its address.
ghost use Rattle.std.specs.Prelude.{◌≡◌, [], ◌∷◌, ◌<◌};
ghost use Rattle.std.specs.Int.{w32, to_be_bytes};
ghost use Rattle.sn_aes.specs.Field.{product};
ghost use Rattle.sn_aes.specs.Inverse.{inverse_sbox};
ghost use Rattle.sn_aes.specs.Cipher.{sbox};

use crate::tables::{INVERSE_LAST_TABLE, INVERSE_ROUND_TABLE, LAST_TABLE, ROUND_TABLE, SBOX};

// SBOX.
#[inline(always)]
pub fn substitute(x: usize) -> u8
    requires { x < 256 }
    ensures { result ≡ sbox x }
{
    SBOX[x]
}

// What the S-box of `x`, in row 0, adds to each row of its column.
#[inline(always)]
pub fn table0(x: usize) -> u32
    requires { x < 256 }
    ensures { to_be_bytes w32 result ≡ product 2 (sbox x) ∷ sbox x ∷ sbox x ∷ product 3 (sbox x) ∷ [] }
{
    ROUND_TABLE[x]
}

// The same in row 1.
#[inline(always)]
pub fn table1(x: usize) -> u32
    requires { x < 256 }
    ensures { to_be_bytes w32 result ≡ product 3 (sbox x) ∷ product 2 (sbox x) ∷ sbox x ∷ sbox x ∷ [] }
{
    ROUND_TABLE[256 + x]
}

// The same in row 2.
#[inline(always)]
pub fn table2(x: usize) -> u32
    requires { x < 256 }
    ensures { to_be_bytes w32 result ≡ sbox x ∷ product 3 (sbox x) ∷ product 2 (sbox x) ∷ sbox x ∷ [] }
{
    ROUND_TABLE[512 + x]
}

// The same in row 3.
#[inline(always)]
pub fn table3(x: usize) -> u32
    requires { x < 256 }
    ensures { to_be_bytes w32 result ≡ sbox x ∷ sbox x ∷ product 3 (sbox x) ∷ product 2 (sbox x) ∷ [] }
{
    ROUND_TABLE[768 + x]
}

// The S-box of `x` in row 0, and 0 in the others.
#[inline(always)]
pub fn last_table0(x: usize) -> u32
    requires { x < 256 }
    ensures { to_be_bytes w32 result ≡ sbox x ∷ 0 ∷ 0 ∷ 0 ∷ [] }
{
    LAST_TABLE[x]
}

// The same in row 1.
#[inline(always)]
pub fn last_table1(x: usize) -> u32
    requires { x < 256 }
    ensures { to_be_bytes w32 result ≡ 0 ∷ sbox x ∷ 0 ∷ 0 ∷ [] }
{
    LAST_TABLE[256 + x]
}

// The same in row 2.
#[inline(always)]
pub fn last_table2(x: usize) -> u32
    requires { x < 256 }
    ensures { to_be_bytes w32 result ≡ 0 ∷ 0 ∷ sbox x ∷ 0 ∷ [] }
{
    LAST_TABLE[512 + x]
}

// The same in row 3.
#[inline(always)]
pub fn last_table3(x: usize) -> u32
    requires { x < 256 }
    ensures { to_be_bytes w32 result ≡ 0 ∷ 0 ∷ 0 ∷ sbox x ∷ [] }
{
    LAST_TABLE[768 + x]
}

// What the inverse S-box of `x`, in row 0, adds to each row of its column.
#[inline(always)]
pub fn inverse_table0(x: usize) -> u32
    requires { x < 256 }
    ensures { to_be_bytes w32 result ≡ product 14 (inverse_sbox x) ∷ product 9 (inverse_sbox x)
        ∷ product 13 (inverse_sbox x) ∷ product 11 (inverse_sbox x) ∷ [] }
{
    INVERSE_ROUND_TABLE[x]
}

// The same in row 1.
#[inline(always)]
pub fn inverse_table1(x: usize) -> u32
    requires { x < 256 }
    ensures { to_be_bytes w32 result ≡ product 11 (inverse_sbox x) ∷ product 14 (inverse_sbox x)
        ∷ product 9 (inverse_sbox x) ∷ product 13 (inverse_sbox x) ∷ [] }
{
    INVERSE_ROUND_TABLE[256 + x]
}

// The same in row 2.
#[inline(always)]
pub fn inverse_table2(x: usize) -> u32
    requires { x < 256 }
    ensures { to_be_bytes w32 result ≡ product 13 (inverse_sbox x) ∷ product 11 (inverse_sbox x)
        ∷ product 14 (inverse_sbox x) ∷ product 9 (inverse_sbox x) ∷ [] }
{
    INVERSE_ROUND_TABLE[512 + x]
}

// The same in row 3.
#[inline(always)]
pub fn inverse_table3(x: usize) -> u32
    requires { x < 256 }
    ensures { to_be_bytes w32 result ≡ product 9 (inverse_sbox x) ∷ product 13 (inverse_sbox x)
        ∷ product 11 (inverse_sbox x) ∷ product 14 (inverse_sbox x) ∷ [] }
{
    INVERSE_ROUND_TABLE[768 + x]
}

// The inverse S-box of `x` in row 0, and 0 in the others.
#[inline(always)]
pub fn inverse_last_table0(x: usize) -> u32
    requires { x < 256 }
    ensures { to_be_bytes w32 result ≡ inverse_sbox x ∷ 0 ∷ 0 ∷ 0 ∷ [] }
{
    INVERSE_LAST_TABLE[x]
}

// The same in row 1.
#[inline(always)]
pub fn inverse_last_table1(x: usize) -> u32
    requires { x < 256 }
    ensures { to_be_bytes w32 result ≡ 0 ∷ inverse_sbox x ∷ 0 ∷ 0 ∷ [] }
{
    INVERSE_LAST_TABLE[256 + x]
}

// The same in row 2.
#[inline(always)]
pub fn inverse_last_table2(x: usize) -> u32
    requires { x < 256 }
    ensures { to_be_bytes w32 result ≡ 0 ∷ 0 ∷ inverse_sbox x ∷ 0 ∷ [] }
{
    INVERSE_LAST_TABLE[512 + x]
}

// The same in row 3.
#[inline(always)]
pub fn inverse_last_table3(x: usize) -> u32
    requires { x < 256 }
    ensures { to_be_bytes w32 result ≡ 0 ∷ 0 ∷ 0 ∷ inverse_sbox x ∷ [] }
{
    INVERSE_LAST_TABLE[768 + x]
}
