//! A file that can't be synced.

use sn_disk::{Disk, Shelf};
use sn_system::{FileDisk, FileShelf};

fn fails_each_call(disk: &mut FileDisk) -> bool {
    disk.sync().is_err()
        && disk.len().is_err()
        && disk.read(0, &mut []).is_err()
        && disk.write_at(0, b"x").is_err()
        && disk.cut(0).is_err()
        && disk.sync().is_err()
        && disk.faults() == 7
}

fn is_lost(disk: &mut FileDisk) -> bool {
    let mut byte = [0u8];
    // A read past the end fails alone.
    disk.read(0, &mut byte).is_err()
        && disk.write_at(0, b"x").is_ok()
        && disk.len() == Ok(0)
        && fails_each_call(disk)
}

fn loses_the_null_device(shelf: &mut FileShelf<'_, HostRuntime>) -> bool {
    let Ok(mut disk) = shelf.take("/dev/null") else {
        return false;
    };
    let is_lost = is_lost(&mut disk);
    shelf.give("/dev/null", disk);
    is_lost
}

// The null device can't be synced.
#[test]
fn after_a_failed_sync_each_call_fails(rt: HostRuntime) {
    let mut shelf = FileShelf::new(&rt);
    assert!(rt; loses_the_null_device(&mut shelf));
}
