// What stands behind the places of small stores, whose bytes are laid out by hand; and that nothing answers want of memory.
use sn_journal::Owner;
use sn_tail::{Tail, TailError, batches_behind, place_of_end};
use std::alloc::Global;

// A batch at 16, 27 and 44, of one change, of two and of none, and a closed gate at 49.
const STORE: &[u8] =
    b"SNSYNC-JOURNALD1\x01\0\0\0\x06\0\x11\0\0\0\0\x01\0\0\0\x0c\0\x11\0\0\0\0\0\x11\0\0\0\0\x01\0\0\0\0\x07\x01\0";

fn have_sizes(tail: &Tail, sizes: &[usize]) -> bool {
    let batches = tail.batches.as_slice();
    for (batch, size) in batches.iter().zip(sizes) {
        if batch.len() != *size {
            return false;
        }
    }
    batches.len() == sizes.len()
}

// Whether so many changes stand in each batch behind a place, and the gate behind them at its place.
fn finds(alloc: Global, bytes: &[u8], place: u64, sizes: &[usize], gate: u64) -> bool {
    match batches_behind(alloc, Owner::Device, bytes, place) {
        Ok(tail) => {
            tail.gate == gate && have_sizes(&tail, sizes) && place_of_end(bytes, place) == gate
        }
        Err(_) => false,
    }
}

// A store, a place, how many changes each batch behind it has, and the gate behind them.
static FOUND: [(&[u8], u64, &[usize], u64); 9] = [
    (STORE, 16, &[1, 2, 0], 49),
    (STORE, 27, &[2, 0], 49),
    (STORE, 44, &[0], 49),
    (STORE, 49, &[], 49),
    (b"", 16, &[], 16),
    (b"\0", 16, &[], 16),
    (b"SNSYNC-JOURNALD1\0", 16, &[], 16),
    (b"SNSYNC-JOURNALD1\x02\x01", 16, &[], 16),
    (b"\0NSYNC-JOURNALD1\x01", 16, &[], 16),
];

#[test]
fn batches_behind_each_place(rt: HostRuntime) {
    for (store, place, sizes, gate) in &FOUND {
        assert!(rt;
            finds(rt.alloc(), store, *place, sizes, *gate),
            "{store:?} {place}"
        );
    }
}

static DAMAGED: [(&[u8], u64); 2] = [
    // no change
    (b"SNSYNC-JOURNALD1\x01\0\0\0\x01\0\0", 16),
    // a server's row, in the second batch
    (
        b"SNSYNC-JOURNALD1\x01\0\0\0\x06\0\x11\0\0\0\0\x01\0\0\0\x06\0\x01\0\0\0\0\0",
        27,
    ),
];

fn is_damaged(alloc: Global, file: &[u8], gate: u64) -> bool {
    match batches_behind(alloc, Owner::Device, file, 16) {
        Ok(_) => false,
        Err(error) => error == TailError::Damaged { gate },
    }
}

#[test]
fn damaged_batches(rt: HostRuntime) {
    for (file, gate) in &DAMAGED {
        assert!(rt; is_damaged(rt.alloc(), file, *gate), "{file:?}");
    }
}
