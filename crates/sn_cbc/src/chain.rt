// The chain of blocks, in place. Blocks are held by their columns, and the last one from turn to turn.
ghost use Rattle.std.specs.Prelude.{◌≡◌, ◌%◌, length};
ghost use Rattle.sn_cbc.specs.Cbc.{IsChained};

use crate::blocks::{block_at, write_block};
use sn_aes::{Aes256Dec, Aes256Enc, block_of_columns, columns_of_block, xor_columns};

/// Encrypts a text of whole blocks.
pub fn encrypt(aes: &Aes256Enc, iv: &[u8; 16], text: &mut [u8])
    requires { length text.old % 16 ≡ 0 }
    ensures { IsChained aes.now iv.now text.old text.new }
{
    let mut last = columns_of_block(iv);
    'texts: for i in 0..text.len() / 16 {
        let block = columns_of_block(block_at(text, 16 * i));
        let next = aes.encrypt_columns(xor_columns(block, last));
        last = next;
        write_block(text, 16 * i, block_of_columns(next));
    }
}

/// The text that `encrypt` takes to this one.
pub fn decrypt(aes: &Aes256Dec, iv: &[u8; 16], text: &mut [u8])
    requires { length text.old % 16 ≡ 0 }
    ensures { IsChained aes.now iv.now text.new text.old }
{
    let mut last = columns_of_block(iv);
    'texts: for i in 0..text.len() / 16 {
        let block = columns_of_block(block_at(text, 16 * i));
        let plain = xor_columns(aes.decrypt_columns(block), last);
        last = block;
        write_block(text, 16 * i, block_of_columns(plain));
    }
}
