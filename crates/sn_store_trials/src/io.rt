// Reads, writes and seeds in memory, each listed call failing in its turn.
use sn_io::{
    Failed, FaultPlan, MemSeeds, MemSink, MemSource, ReadError, Seeds, Sink, Source, read_all,
    write_all,
};
use std::alloc::{AllocError, Global};

const TEXT: &[u8] = b"hello world";

fn source(alloc: Global, piece: usize, failing: &[u64]) -> Result<MemSource, AllocError> {
    let piece = piece.max(1);
    Ok(MemSource::new(TEXT.to_vec(alloc)?, piece, failing.to_vec(alloc)?))
}

fn refuses(alloc: Global, source: &mut MemSource, most: u8, expected: ReadError) -> bool {
    match read_all(alloc, source, most as usize) {
        Ok(_) => false,
        Err(error) => error == expected,
    }
}

// In pieces of 4 bytes the reads give 4, 4, 3 and 0 bytes: what is left where each call fails.
static LEFT: [(u64, usize); 4] = [(0, 11), (1, 7), (2, 3), (3, 0)];

fn fails_to_read(alloc: Global, call: u64, left: usize) -> bool {
    match source(alloc, 4, &[7, call]) {
        Ok(mut failing) => {
            refuses(alloc, &mut failing, 11, ReadError::Failed)
                && failing.left().len() == left
                && failing.faults() == 1
        }
        Err(_) => false,
    }
}

#[test]
fn reads_fail_where_listed(rt: HostRuntime) {
    for (call, left) in &LEFT {
        assert!(rt; fails_to_read(rt.alloc(), *call, *left), "at call {call}");
    }
}

// In pieces of 4 bytes there are three writes: what is held where each call fails.
static HELD: [(u64, usize); 4] = [(0, 0), (1, 4), (2, 8), (3, 11)];

fn fails_to_write(alloc: Global, call: u64, held: usize) -> bool {
    let Ok(listed) = [call].to_vec(alloc) else {
        return false;
    };
    let mut sink = MemSink::new(alloc, 4, listed);
    let fails = call < 3;
    write_all(&mut sink, TEXT).is_err() == fails
        && sink.bytes().len() == held
        && sink.faults() == fails as u64
        && sink.wants() == 0
}

#[test]
fn writes_fail_where_listed(rt: HostRuntime) {
    for (call, held) in &HELD {
        assert!(rt; fails_to_write(rt.alloc(), *call, *held), "at call {call}");
    }
}

fn counts(plan: &FaultPlan, faults: u64, wants: u64) -> bool {
    plan.faults() == faults && plan.wants() == wants
}

fn plans(alloc: Global) -> bool {
    let Ok(listed) = [1].to_vec(alloc) else {
        return false;
    };
    let mut plan = FaultPlan::new(listed);
    plan.begin() == Ok(())
        && plan.begin() == Err(Failed)
        && counts(&plan, 1, 0)
        && plan.want() == Failed
        && counts(&plan, 2, 1)
        && plan.fail() == Failed
        && counts(&plan, 3, 1)
}

fn draws(alloc: Global) -> bool {
    let Ok(listed) = [[7u8; 32], [9; 32]].to_vec(alloc) else {
        return false;
    };
    let mut seeds = MemSeeds::new(listed);
    seeds.draw() == [7; 32] && seeds.draw() == [9; 32] && seeds.draw() == [0; 32]
}

#[test]
fn plans_and_seeds(rt: HostRuntime) {
    assert!(rt; plans(rt.alloc()));
    assert!(rt; draws(rt.alloc()));
}
