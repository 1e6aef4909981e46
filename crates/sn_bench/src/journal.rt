//! A journal on a disk in memory.

use sn_disk::MemDisk;
use sn_journal::{Owner, load};
use std::alloc::Global;

/// Appends so many batches of one payload to a fresh journal, and then loads it so many times. Answers the number of
/// batches that the last loading found, and 2^64 - 1 where memory was wanting.
#[unsafe(no_mangle)]
pub extern "C" fn sn_bench_journal(alloc: Global, payload: &[u8], batches: u64, loads: u64) -> u64 {
    match appended(alloc, payload, batches) {
        Some(disk) => loaded(alloc, disk, loads),
        None => u64::MAX,
    }
}

fn appended(alloc: Global, payload: &[u8], batches: u64) -> Option<MemDisk> {
    let Ok(disk) = MemDisk::new(alloc, Vec::new(alloc), Vec::new(alloc)) else {
        return None;
    };
    let mut journal = match load(alloc, disk, Owner::Server) {
        Ok((journal, _batches)) => journal,
        Err(_refusal) => return None,
    };
    'batches: for _ in 0..batches {
        journal = match journal.append(payload) {
            Ok(journal) => journal,
            Err(_refusal) => return None,
        };
    }
    Some(journal.close())
}

fn loaded(alloc: Global, disk: MemDisk, loads: u64) -> u64 {
    let mut disk = disk;
    let mut found = 0;
    'loads: for _ in 0..loads {
        match load(alloc, disk, Owner::Server) {
            Ok((journal, _batches)) => {
                found = journal.count();
                disk = journal.close();
            }
            Err(_refusal) => return u64::MAX,
        }
    }
    found
}
