// Every stop with every image, and every listed call that fails.
use sn_disk::{CrashImage, Disk, MemDisk, Stop};
use sn_journal::{AppendError, Batches, Journal, Owner, batches_in, load};
use std::alloc::{AllocError, Global};

static IMAGES: [CrashImage; 6] = [
    CrashImage::Old,
    CrashImage::New,
    CrashImage::Filled(0),
    CrashImage::Filled(1),
    CrashImage::Filled(7),
    CrashImage::Filled(255),
];

fn disk_of(alloc: Global, bytes: &[u8], stop: Stop) -> Result<MemDisk, AllocError> {
    let mut disk = MemDisk::new(alloc, bytes.to_vec(alloc)?, Vec::new(alloc))?;
    disk.set_stop(stop);
    Ok(disk)
}

fn appended(journal: Journal<MemDisk>, payload: &[u8]) -> Result<Journal<MemDisk>, MemDisk> {
    match journal.append(payload) {
        Ok(journal) => Ok(journal),
        Err(AppendError::TooLarge(journal, _)) => Err(journal.close()),
        Err(AppendError::Memory(journal)) => Err(journal.close()),
        Err(AppendError::DiskFault(disk)) => Err(disk),
    }
}

// Makes a journal, appends `one` and `two`, and loads it again. Answers the disk with how many batches were done.
fn run(alloc: Global, disk: MemDisk) -> (MemDisk, usize) {
    let journal = match load(alloc, disk, Owner::Device) {
        Ok((journal, _)) => journal,
        Err((disk, _)) => return (disk, 0),
    };
    let journal = match appended(journal, b"one") {
        Ok(journal) => journal,
        Err(disk) => return (disk, 0),
    };
    match appended(journal, b"two") {
        Ok(journal) => match load(alloc, journal.close(), Owner::Device) {
            Ok((journal, _)) => (journal.close(), 2),
            Err((disk, _)) => (disk, 2),
        },
        Err(disk) => (disk, 1),
    }
}

// What a list of so many of the batches `one` and `two` gives in three calls.
static FIRST: [[Option<&[u8]>; 3]; 3] = [
    [None, None, None],
    [Some(b"one"), None, None],
    [Some(b"one"), Some(b"two"), None],
];

// Whether these are the batches `one` and `two`, or so many of them.
fn are_first(batches: &Batches, expected: usize) -> bool {
    let mut payloads = batches.payloads();
    let found = [payloads.next(), payloads.next(), payloads.next()];
    match FIRST.get(expected) {
        Some(first) => found == *first,
        None => false,
    }
}

// Whether a loading of the disk finds so many of the batches `one` and `two`, and no more.
fn holds(alloc: Global, disk: MemDisk, expected: usize) -> bool {
    match load(alloc, disk, Owner::Device) {
        Ok((journal, batches)) => {
            journal.count() == expected as u64 && are_first(&batches, expected)
        }
        Err(_) => false,
    }
}

// How many batches a stop after so many calls leaves.
fn batches_left(calls: u64, image: CrashImage) -> usize {
    let opens = matches!(image, CrashImage::New | CrashImage::Filled(1));
    match calls {
        0..9 => 0,
        9..11 => opens as usize,
        11..13 => 1,
        13..15 => 1 + opens as usize,
        _ => 2,
    }
}

// The calls 1 to 7 make the journal, 8 to 11 and 12 to 15 append, 16 is the sync of the last loading.
#[test]
fn every_stop_with_every_image(rt: HostRuntime) {
    for calls in 0..18u64 {
        for image in &IMAGES {
            assert!(rt;
                leaves_its_batches(rt.alloc(), calls, *image),
                "{calls} {image:?}"
            );
        }
    }
}

fn leaves_its_batches(alloc: Global, calls: u64, image: CrashImage) -> bool {
    let Ok(stopping) = disk_of(alloc, b"", Stop::After { calls, image }) else {
        return false;
    };
    let (mut disk, done) = run(alloc, stopping);
    let expected = batches_left(calls, image);
    let is_left = is_left(&disk, calls < 16, expected);
    disk.set_stop(Stop::Never);
    is_left
        && is_last(done, expected)
        && holds_copied(alloc, &disk, expected)
        && finds_again(alloc, &disk, expected)
}

fn is_left(disk: &MemDisk, stops: bool, expected: usize) -> bool {
    disk.has_stopped() == stops
        && disk.faults() == stops as u64
        && batches_in(disk.bytes(), Owner::Device) == Ok(expected as u64)
}

// Whether these are the batches that were done, or one more.
fn is_last(done: usize, count: usize) -> bool {
    done <= count && count <= done.saturating_add(1)
}

fn holds_copied(alloc: Global, disk: &MemDisk, expected: usize) -> bool {
    match disk.copy(alloc) {
        Ok(copy) => holds(alloc, copy, expected),
        Err(_) => false,
    }
}

// Whether there are so many batches after a loading that was stopped, at any of its calls and with any image.
fn finds_again(alloc: Global, disk: &MemDisk, expected: usize) -> bool {
    for calls in 0..7u64 {
        for image in &IMAGES {
            let stop = Stop::After {
                calls,
                image: *image,
            };
            if !finds_after(alloc, disk, stop, expected) {
                return false;
            }
        }
    }
    true
}

fn finds_after(alloc: Global, disk: &MemDisk, stop: Stop, expected: usize) -> bool {
    let Ok(mut stopping) = disk.copy(alloc) else {
        return false;
    };
    stopping.set_stop(stop);
    let mut left = reloaded(alloc, stopping);
    left.set_stop(Stop::Never);
    holds(alloc, left, expected)
}

fn reloaded(alloc: Global, disk: MemDisk) -> MemDisk {
    match load(alloc, disk, Owner::Device) {
        Ok((journal, _batches)) => journal.close(),
        Err((disk, _error)) => disk,
    }
}

fn failing_disk(alloc: Global, call: u64) -> Result<MemDisk, AllocError> {
    MemDisk::new(alloc, Vec::new(alloc), [call].to_vec(alloc)?)
}

// Whether the fault is counted, and the journal loads again with the batches that were done, or one more.
fn fails_in_its_call(alloc: Global, call: u64) -> bool {
    let Ok(disk) = failing_disk(alloc, call) else {
        return false;
    };
    let (disk, done) = run(alloc, disk);
    let count = match batches_in(disk.bytes(), Owner::Device) {
        Ok(count) => count as usize,
        Err(_) => usize::MAX,
    };
    let is_counted = disk.faults() == 1 && disk.wants() == 0;
    is_counted && is_last(done, count) && holds(alloc, disk, count)
}

// A listed call fails, whichever of the twenty it is, and the journal loads again.
#[test]
fn faults_where_listed(rt: HostRuntime) {
    for call in 0..20u64 {
        assert!(rt; fails_in_its_call(rt.alloc(), call), "{call}");
    }
}
