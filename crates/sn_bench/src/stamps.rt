//! Stamps and tokens, and their texts.

ghost use Rattle.std.specs.Prelude.{◌≡◌, ◌↔◌, ◌≤◌, ◌<◌, ◌-◌, ◌^◌, ℕ, take, IsTrue};
ghost use Rattle.std.specs.Str.{IsUtf8};
ghost use Rattle.sn_string.specs.Bounds.{last_stamp};
ghost use Rattle.sn_sync.specs.Stamps.{IsStampText};
ghost use Rattle.sn_sync.specs.Tokens.{IsToken};

use crate::messages::placed;
use sn_string::LAST_STAMP;
use sn_sync::{Stamp, token_read, token_text};
use std::alloc::Global;

/// Writes the text of a stamp. False where the number is none.
#[unsafe(no_mangle)]
pub extern "C" fn sn_bench_stamp_text(stamp: u64, text: &mut [u8; 27]) -> bool
    ensures any { IsTrue result ↔ (stamp ≤ last_stamp) }
    ensures spelled { IsTrue result → IsStampText text.new stamp }
{
    if stamp > LAST_STAMP {
        return false;
    }
    *text = Stamp::bytes(stamp);
    true
}

/// The stamp of a text, and 2^64 - 1 where it is none.
#[unsafe(no_mangle)]
pub extern "C" fn sn_bench_stamp(text: &[u8]) -> u64
    ensures some { result < 2 ^ 64 - 1 → IsStampText text.now result }
    ensures none { IsUtf8 text.now → result ≡ 2 ^ 64 - 1 → (stamp : ℕ) → ¬ (IsStampText text.now stamp) }
{
    match str::from_utf8(text) {
        Ok(text) => match Stamp::read(text) {
            Ok(stamp) => stamp,
            Err(_) => u64::MAX,
        },
        Err(_) => u64::MAX,
    }
}

/// Writes the token of a stamp. Answers its length, and 2^64 - 1 where the number is no stamp, `room` is too small or
/// memory was wanting.
#[unsafe(no_mangle)]
pub extern "C" fn sn_bench_token_text(alloc: Global, stamp: u64, room: &mut [u8]) -> u64
    ensures { result < 2 ^ 64 - 1 → IsToken (take result room.new) stamp }
{
    if stamp > LAST_STAMP {
        return u64::MAX;
    }
    match token_text(alloc, stamp) {
        Ok(text) => placed(&text, room),
        Err(_) => u64::MAX,
    }
}

/// The stamp of a token, and 2^64 - 1 where it is none.
#[unsafe(no_mangle)]
pub extern "C" fn sn_bench_token(text: &[u8]) -> u64
    ensures some { result < 2 ^ 64 - 1 → IsToken text.now result }
    ensures none { IsUtf8 text.now → result ≡ 2 ^ 64 - 1 → (stamp : ℕ) → ¬ (IsToken text.now stamp) }
{
    match str::from_utf8(text) {
        Ok(text) => match token_read(text) {
            Ok(stamp) => stamp,
            Err(_) => u64::MAX,
        },
        Err(_) => u64::MAX,
    }
}
