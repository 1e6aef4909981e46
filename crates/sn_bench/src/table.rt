//! A server's table of rows on a disk in memory.

ghost use Rattle.std.specs.Prelude.{◌≡◌, IfSome};
ghost use Rattle.sn_journal.specs.declared.owner.Owner.TheVariants.{Server};
ghost use Rattle.sn_table.specs.Tables.{table_owner};

use sn_disk::MemDisk;
use sn_journal::Owner;
use sn_rows::{Change, Key, RowKind, read};
use sn_table::{Committed, Table, are_of, load};
use std::alloc::Global;
use std::vec::IntoIter;
use uuid::Uuid;

/// Loads the table of a file so many times. Answers how many times it was loaded, and 2^64 - 1 where the file is
/// refused or memory was wanting.
#[unsafe(no_mangle)]
pub extern "C" fn sn_bench_load_table(alloc: Global, file: &[u8], loads: u64) -> u64 {
    match disk_of(alloc, file) {
        Some(disk) => loaded(alloc, disk, loads),
        None => u64::MAX,
    }
}

/// Loads the table of a file, and then gets the items of these uuids, of 16 bytes each, so many times. Answers how
/// many were found, and 2^64 - 1 where the file is refused or memory was wanting.
#[unsafe(no_mangle)]
pub extern "C" fn sn_bench_get_rows(alloc: Global, file: &[u8], uuids: &[u8], rounds: u64) -> u64 {
    let Some(table) = table_of(alloc, file) else {
        return u64::MAX;
    };
    let mut found = 0u64;
    'rounds: for _ in 0..rounds {
        found = found.saturating_add(found_of(&table, uuids));
    }
    found
}

/// Loads the table of a file, and then gets the rows of the kind of this number so many times. Answers how many rows
/// they were in all, and 2^64 - 1 where the file or the number is refused or memory was wanting.
#[unsafe(no_mangle)]
pub extern "C" fn sn_bench_range_rows(alloc: Global, file: &[u8], kind: u8, ranges: u64) -> u64 {
    match (table_of(alloc, file), RowKind::of_number(kind)) {
        (Some(table), Some(kind)) => ranged(&table, kind, ranges),
        _ => u64::MAX,
    }
}

/// Loads the table of a file, and then makes the first of the changes that a payload spells, so many in a commit and
/// so many commits. Answers how many were done, and 2^64 - 1 where file, payload or a commit is refused or memory was
/// wanting.
#[unsafe(no_mangle)]
pub extern "C" fn sn_bench_commit_rows(
    alloc: Global,
    file: &[u8],
    payload: &[u8],
    size: u64,
    commits: u64,
) -> u64 {
    let Some(table) = table_of(alloc, file) else {
        return u64::MAX;
    };
    match read(alloc, payload) {
        Ok(changes) => committed(alloc, table, changes.into_vec(), size, commits),
        Err(_refusal) => u64::MAX,
    }
}

fn disk_of(alloc: Global, file: &[u8]) -> Option<MemDisk> {
    let bytes = file.to_vec(alloc).ok()?;
    MemDisk::new(alloc, bytes, Vec::new(alloc)).ok()
}

fn opened(alloc: Global, disk: MemDisk) -> Option<Table<MemDisk>>
    ensures { IfSome result (λ table. table_owner table ≡ Server) }
{
    match load(alloc, disk, Owner::Server) {
        Ok(table) => Some(table),
        Err(_refusal) => None,
    }
}

fn table_of(alloc: Global, file: &[u8]) -> Option<Table<MemDisk>>
    ensures { IfSome result (λ table. table_owner table ≡ Server) }
{
    match disk_of(alloc, file) {
        Some(disk) => opened(alloc, disk),
        None => None,
    }
}

fn loaded(alloc: Global, disk: MemDisk, loads: u64) -> u64 {
    let mut disk = disk;
    'loads: for _ in 0..loads {
        match opened(alloc, disk) {
            Some(table) => disk = table.close(),
            None => return u64::MAX,
        }
    }
    loads
}

fn found_of(table: &Table<MemDisk>, uuids: &[u8]) -> u64 {
    let mut found = 0u64;
    'uuids: for bytes in uuids.chunks(16) {
        if has_item(table, bytes) {
            found = found.saturating_add(1);
        }
    }
    found
}

fn has_item(table: &Table<MemDisk>, bytes: &[u8]) -> bool {
    match Uuid::from_slice(bytes) {
        Ok(uuid) => table.get(&Key::Item(uuid)).is_some(),
        Err(_refusal) => false,
    }
}

fn ranged(table: &Table<MemDisk>, kind: RowKind, ranges: u64) -> u64 {
    let mut count = 0u64;
    'ranges: for _ in 0..ranges {
        match table.range(kind) {
            Ok(rows) => count = count.saturating_add(rows.len() as u64),
            Err(_refusal) => return u64::MAX,
        }
    }
    count
}

fn committed(
    alloc: Global,
    table: Table<MemDisk>,
    changes: Vec<Change>,
    size: u64,
    commits: u64,
) -> u64
    requires { table_owner table ≡ Server }
{
    let mut table = table;
    let mut left = changes.into_iter();
    'commits: for _ in 0..commits {
        let Some(batch) = first_of(alloc, &mut left, size) else {
            return u64::MAX;
        };
        match changed(table, batch) {
            Some(after) => table = after,
            None => return u64::MAX,
        }
    }
    commits
}

// So many changes, or those that are left.
fn first_of(alloc: Global, left: &mut IntoIter<Change>, size: u64) -> Option<Vec<Change>> {
    let mut batch = Vec::new(alloc);
    'size: for _ in 0..size {
        let Some(change) = left.next() else {
            return Some(batch);
        };
        if batch.push(change).is_err() {
            return None;
        }
    }
    Some(batch)
}

fn changed(table: Table<MemDisk>, batch: Vec<Change>) -> Option<Table<MemDisk>>
    requires { table_owner table ≡ Server }
    ensures { IfSome result (λ after. table_owner after ≡ Server) }
{
    if !are_of(Owner::Server, &batch) {
        return None;
    }
    match table.commit(batch) {
        Committed::Done(table) => Some(table),
        _ => None,
    }
}
