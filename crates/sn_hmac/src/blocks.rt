//! A key as one block of the hash function.

ghost use Rattle.std.specs.Prelude.{◌≡◌, ◌++◌, ◌≤◌, ◌-◌, length, replicate};
ghost use Rattle.sn_hmac.specs.Hmac.{masked};

// `bytes`, with zeros up to a block.
pub fn filled<const N: usize>(bytes: &[u8]) -> [u8; N]
    requires { length bytes.now ≤ N }
    ensures { result ≡ bytes.now ++ replicate (N - length bytes.now) 0 }
{
    let mut block = [0u8; N];
    block[..bytes.len()].copy_from_slice(bytes);
    block
}

// `block`, with `byte` xored into each of its bytes.
pub fn masked<const N: usize>(block: &[u8; N], byte: u8) -> [u8; N]
    ensures { result ≡ masked byte block.now }
{
    let mut masked = *block;
    'bytes: for i in 0..N {
        masked[i] ^= byte;
    }
    masked
}
