//! Runs of devices at a server in memory.
//!
//! Each begins with a fresh server and a device that registers there. The content is a JSON object. Each answers 2^64 - 1 where
//! the content isn't UTF-8, a call of a device isn't answered, or memory was wanting.

use crate::client::Client;
use crate::ends::Ends;
use crate::setting::text_of;
use std::alloc::Global;

/// The device puts so many notes of one content. Answers how many it has put.
#[unsafe(no_mangle)]
pub extern "C" fn sn_bench_puts(alloc: Global, content: &[u8], count: u64) -> u64 {
    match put(alloc, content, count) {
        Some(ends) => ends.count(),
        None => u64::MAX,
    }
}

/// The device puts so many notes, and syncs. Answers how many it has put.
#[unsafe(no_mangle)]
pub extern "C" fn sn_bench_pushes(alloc: Global, content: &[u8], count: u64) -> u64 {
    match pushed(alloc, content, count) {
        Some(ends) => ends.count(),
        None => u64::MAX,
    }
}

/// The device puts so many notes and syncs, and then so many others, one after another, sign in, sync, and list their items so many
/// times. Answers how many items without drafts the last list has, and 0 where none is made.
#[unsafe(no_mangle)]
pub extern "C" fn sn_bench_pulls(
    alloc: Global,
    content: &[u8],
    count: u64,
    others: u64,
    lists: u64,
) -> u64 {
    match pulled(alloc, content, count, others, lists) {
        Some(found) => found,
        None => u64::MAX,
    }
}

/// The device puts so many notes, syncs, and is loaded again. Then it gives the first so many of its notes their content once
/// more, in so many rounds, and lists its items so many times. Answers how many items without drafts its last list has, and 0
/// where it makes none.
#[unsafe(no_mangle)]
pub extern "C" fn sn_bench_edits(
    alloc: Global,
    content: &[u8],
    count: u64,
    drafts: usize,
    rounds: u64,
    lists: u64,
) -> u64 {
    match edited(alloc, content, count, drafts, rounds, lists, false) {
        Some(found) => found,
        None => u64::MAX,
    }
}

/// The same with a sync at the end of each round.
#[unsafe(no_mangle)]
pub extern "C" fn sn_bench_drafts(
    alloc: Global,
    content: &[u8],
    count: u64,
    drafts: usize,
    rounds: u64,
    lists: u64,
) -> u64 {
    match edited(alloc, content, count, drafts, rounds, lists, true) {
        Some(found) => found,
        None => u64::MAX,
    }
}

fn put(alloc: Global, content: &[u8], count: u64) -> Option<Ends> {
    let mut ends = Ends::begin(alloc)?;
    ends.put(text_of(content)?, count)?;
    Some(ends)
}

fn pushed(alloc: Global, content: &[u8], count: u64) -> Option<Ends> {
    let mut ends = put(alloc, content, count)?;
    ends.sync()?;
    Some(ends)
}

fn pulled(alloc: Global, content: &[u8], count: u64, others: u64, lists: u64) -> Option<u64> {
    let mut ends = pushed(alloc, content, count)?;
    let mut found = 0;
    'others: for _ in 0..others {
        let other = ends.another()?;
        found = clean(&other, lists)?;
    }
    Some(found)
}

// Rounds of edits of the first items, each with a sync at its end or without one.
fn edited(
    alloc: Global,
    content: &[u8],
    count: u64,
    drafts: usize,
    rounds: u64,
    lists: u64,
    syncs: bool,
) -> Option<u64> {
    let mut ends = pushed(alloc, content, count)?.reloaded()?;
    let content = text_of(content)?;
    'rounds: for _ in 0..rounds {
        ends.edit(content, drafts)?;
        if syncs {
            ends.sync()?;
        }
    }
    clean(ends.device(), lists)
}

// How many items without drafts the last of so many lists has.
fn clean(device: &Client, lists: u64) -> Option<u64> {
    let mut found = 0;
    'lists: for _ in 0..lists {
        found = device.clean()?;
    }
    Some(found)
}
