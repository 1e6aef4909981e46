// The bytes of words, high first, and the words of a block.
ghost use Rattle.std.specs.Prelude.{◌≡◌};
ghost use Rattle.std.specs.Int.{w32, byte_at, to_be_bytes};
ghost use Rattle.sn_aes.specs.Cipher.{four_words, xor_bytes};

// The highest byte of a word, which is the byte in row 0 of a column.
#[inline(always)]
pub fn byte0(w: u32) -> usize
    ensures { result ≡ byte_at 3 w }
{
    (w >> 24) as usize
}

// The byte in row 1.
#[inline(always)]
pub fn byte1(w: u32) -> usize
    ensures { result ≡ byte_at 2 w }
{
    ((w >> 16) & 0xff) as usize
}

// The byte in row 2.
#[inline(always)]
pub fn byte2(w: u32) -> usize
    ensures { result ≡ byte_at 1 w }
{
    ((w >> 8) & 0xff) as usize
}

// The byte in row 3.
#[inline(always)]
pub fn byte3(w: u32) -> usize
    ensures { result ≡ byte_at 0 w }
{
    (w & 0xff) as usize
}

/// The columns of a block, each a word whose highest byte is in row 0 (FIPS 197, 3.4).
#[inline(always)]
pub fn columns_of_block(block: &[u8; 16]) -> [u32; 4]
    ensures { four_words result 0 ≡ block.now }
{
    let [
        b0,
        b1,
        b2,
        b3,
        b4,
        b5,
        b6,
        b7,
        b8,
        b9,
        b10,
        b11,
        b12,
        b13,
        b14,
        b15,
    ] = *block;
    [
        u32::from_be_bytes([b0, b1, b2, b3]),
        u32::from_be_bytes([b4, b5, b6, b7]),
        u32::from_be_bytes([b8, b9, b10, b11]),
        u32::from_be_bytes([b12, b13, b14, b15]),
    ]
}

// A word's bytes, high first. LLVM stores the bytes of `to_le_bytes` as one word.
#[inline(always)]
fn bytes_of_word(w: u32) -> [u8; 4]
    ensures { result ≡ to_be_bytes w32 w }
{
    u32::from_le_bytes(w.to_be_bytes()).to_le_bytes()
}

/// The block of four columns.
#[inline(always)]
pub fn block_of_columns(columns: [u32; 4]) -> [u8; 16]
    ensures { result ≡ four_words columns 0 }
{
    let [a, b, c, d] = columns;
    let [a0, a1, a2, a3] = bytes_of_word(a);
    let [b0, b1, b2, b3] = bytes_of_word(b);
    let [c0, c1, c2, c3] = bytes_of_word(c);
    let [d0, d1, d2, d3] = bytes_of_word(d);
    [
        a0, a1, a2, a3, b0, b1, b2, b3, c0, c1, c2, c3, d0, d1, d2, d3,
    ]
}

/// The exclusive or of two blocks, by their columns.
#[inline(always)]
pub fn xor_columns(a: [u32; 4], b: [u32; 4]) -> [u32; 4]
    ensures { four_words result 0 ≡ xor_bytes (four_words a 0) (four_words b 0) }
{
    let [a0, a1, a2, a3] = a;
    let [b0, b1, b2, b3] = b;
    [a0 ^ b0, a1 ^ b1, a2 ^ b2, a3 ^ b3]
}
