// A disk in memory and a shelf of them, against values worked out by hand from the model of a disk.
use sn_disk::{CrashImage, Disk, MemDisk, MemShelf, Shelf, Stop};
use sn_io::Failed;
use std::alloc::{AllocError, Global};

fn disk_of(alloc: Global, bytes: &[u8], failing: &[u64]) -> Result<MemDisk, AllocError> {
    MemDisk::new(alloc, bytes.to_vec(alloc)?, failing.to_vec(alloc)?)
}

// Writes at a place that the disk has.
fn put(disk: &mut MemDisk, at: u64, bytes: &[u8]) -> Result<(), Failed> {
    if at > disk.bytes().len() as u64 {
        return Err(Failed);
    }
    disk.write_at(at, bytes)
}

// Cuts to a length that the disk has.
fn shorten(disk: &mut MemDisk, len: u64) -> Result<(), Failed> {
    if len > disk.bytes().len() as u64 {
        return Err(Failed);
    }
    disk.cut(len)
}

fn counts(disk: &MemDisk, faults: u64, wants: u64) -> bool {
    disk.faults() == faults && disk.wants() == wants
}

// Four changing calls. From "abcd" reads give "aXYd", the same, "aX" and "aXZ" after them.
fn four_calls(disk: &mut MemDisk) -> Result<(), Failed> {
    put(disk, 1, b"XY")?;
    disk.sync()?;
    shorten(disk, 2)?;
    put(disk, 2, b"Z")
}

fn has_image(alloc: Global, disk: &MemDisk, expected: &[u8]) -> bool {
    match disk.image(alloc, CrashImage::Old) {
        Ok(image) => image.as_slice() == expected,
        Err(_) => false,
    }
}

// What is left of a stop in each of the four calls: the old, the new, and the new filled with a byte.
static STOPS: [(u64, CrashImage, &[u8]); 12] = [
    (0, CrashImage::Old, b"abcd"),
    (0, CrashImage::New, b"aXYd"),
    (0, CrashImage::Filled(b'-'), b"a--d"),
    (1, CrashImage::Old, b"abcd"),
    (1, CrashImage::New, b"aXYd"),
    (1, CrashImage::Filled(b'-'), b"a--d"),
    (2, CrashImage::Old, b"aXYd"),
    (2, CrashImage::New, b"aX"),
    (2, CrashImage::Filled(b'-'), b"aX"),
    (3, CrashImage::Old, b"aXYd"),
    (3, CrashImage::New, b"aXZ"),
    (3, CrashImage::Filled(b'-'), b"aX-"),
];

fn has_stopped(disk: &mut MemDisk, left: &[u8]) -> bool {
    disk.has_stopped() && disk.bytes() == left && disk.sync() == Err(Failed) && counts(disk, 2, 0)
}

fn goes_on(alloc: Global, disk: &mut MemDisk, left: &[u8]) -> bool {
    disk.set_stop(Stop::Never);
    disk.stop() == Stop::Never
        && !disk.has_stopped()
        && put(disk, 0, b"!").is_ok()
        && has_image(alloc, disk, left)
}

fn stops(alloc: Global, stop: Stop, left: &[u8]) -> bool {
    let Ok(mut disk) = disk_of(alloc, b"abcd", &[]) else {
        return false;
    };
    disk.set_stop(stop);
    four_calls(&mut disk) == Err(Failed)
        && has_stopped(&mut disk, left)
        && goes_on(alloc, &mut disk, left)
}

#[test]
fn every_stop(rt: HostRuntime) {
    for (calls, image, left) in &STOPS {
        let stop = Stop::After {
            calls: *calls,
            image: *image,
        };
        assert!(rt; stops(rt.alloc(), stop, left), "{calls} {image:?}");
    }
}

// What reads give after the call that failed, and what a crash leaves of the old.
static LISTED: [(u64, &[u8], &[u8]); 5] = [
    (0, b"abcd", b"abcd"),
    (1, b"aXYd", b"abcd"),
    (2, b"aXYd", b"aXYd"),
    (3, b"aX", b"aXYd"),
    (4, b"aXZ", b"aXYd"),
];

fn ends_as(alloc: Global, disk: &mut MemDisk, fails: bool, bytes: &[u8], old: &[u8]) -> bool {
    four_calls(disk).is_err() == fails
        && counts(disk, fails as u64, 0)
        && disk.bytes() == bytes
        && has_image(alloc, disk, old)
}

fn fails_in(alloc: Global, call: u64, bytes: &[u8], old: &[u8]) -> bool {
    match disk_of(alloc, b"abcd", &[call]) {
        Ok(mut disk) => ends_as(alloc, &mut disk, call < 4, bytes, old),
        Err(_) => false,
    }
}

#[test]
fn every_listed_call(rt: HostRuntime) {
    for (call, bytes, old) in &LISTED {
        assert!(rt; fails_in(rt.alloc(), *call, bytes, old), "{call}");
    }
}

fn shelf_of_two(alloc: Global) -> Result<MemShelf, AllocError> {
    let mut shelf = MemShelf::new(alloc, [1].to_vec(alloc)?);
    shelf.put("b".to_string(alloc)?, disk_of(alloc, b"abcd", &[])?)?;
    shelf.put("a".to_string(alloc)?, disk_of(alloc, b"abcd", &[])?)?;
    Ok(shelf)
}

fn refuses(shelf: &mut MemShelf, name: &str) -> bool {
    shelf.take(name).is_err()
}

fn gives_back(shelf: &mut MemShelf) -> bool {
    let Ok(mut disk) = shelf.take("a") else {
        return false;
    };
    let is_out = shelf.take("a").is_err();
    let is_put = put(&mut disk, 0, b"!").is_ok();
    shelf.give("a", disk);
    is_out && is_put
}

fn takes(shelf: &mut MemShelf, expected: &[u8]) -> bool {
    match shelf.take("a") {
        Ok(disk) => disk.bytes() == expected,
        Err(_) => false,
    }
}

fn names_two(alloc: Global, shelf: &MemShelf) -> bool {
    match shelf.names(alloc) {
        Ok(names) => {
            matches!(names.as_slice(), [first, second] if first.as_str() == "a" && second.as_str() == "b")
        }
        Err(_) => false,
    }
}

fn lends(alloc: Global) -> bool {
    let Ok(mut shelf) = shelf_of_two(alloc) else {
        return false;
    };
    // Call 0 is of no disk, call 1 is listed, and from call 2 to 4 the disk stands there, is out, and stands there.
    refuses(&mut shelf, "c")
        && refuses(&mut shelf, "a")
        && gives_back(&mut shelf)
        && takes(&mut shelf, b"!bcd")
        && shelf.faults() == 3
        && names_two(alloc, &shelf)
}

#[test]
fn takes_and_gives(rt: HostRuntime) {
    assert!(rt; lends(rt.alloc()));
}
