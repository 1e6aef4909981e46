//! Rows, read from their bytes and written.

ghost use Rattle.std.specs.Prelude.{◌≡◌, ◌<◌, ◌-◌, ◌^◌, List, length};
ghost use Rattle.sn_rows.specs.Laws.{Spells};
ghost use Rattle.sn_rows.specs.declared.change.Change.{Change};

use sn_rows::{Change, read, write};
use std::alloc::Global;

/// Reads the changes of a payload. Answers how many they are, and 2^64 - 1 where the payload is refused or memory
/// was wanting.
#[unsafe(no_mangle)]
pub extern "C" fn sn_bench_read_rows(alloc: Global, bytes: &[u8]) -> u64
    ensures { result < 2 ^ 64 - 1 → (changes : List Change) × Spells bytes.now changes × (length changes ≡ result) }
{
    match read(alloc, bytes) {
        Ok(changes) => changes.len() as u64,
        Err(_refusal) => u64::MAX,
    }
}

/// Reads the changes of a payload, and then writes them so many times. Answers the length of what the last writing
/// gave, and 2^64 - 1 where the payload is refused or memory was wanting.
#[unsafe(no_mangle)]
pub extern "C" fn sn_bench_write_rows(alloc: Global, bytes: &[u8], writes: u64) -> u64 {
    match read(alloc, bytes) {
        Ok(changes) => written(alloc, changes.as_slice(), writes),
        Err(_refusal) => u64::MAX,
    }
}

fn written(alloc: Global, changes: &[Change], writes: u64) -> u64 {
    let mut length = 0;
    'writes: for _ in 0..writes {
        match write(alloc, changes) {
            Ok(bytes) => length = bytes.len() as u64,
            Err(_refusal) => return u64::MAX,
        }
    }
    length
}
