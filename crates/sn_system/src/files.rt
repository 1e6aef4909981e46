// Files as disks, kept by their paths.
ghost use Rattle.std.specs.Prelude.{◌≡◌, ◌↔◌, [], IsTrue, IsErr, OnOk, false};
ghost use Rattle.sn_io.specs.Causes.{CountsFailure};
ghost use Rattle.sn_disk.specs.Shelf.{unknown};

use crate::faults::{counted, fault};
use sn_disk::{Disk, Shelf};
use sn_io::Failed;
use std::fs::{File, OpenOptions};
use std::io;
use std::os::unix::fs::{FileExt, OpenOptionsExt};
use std::path::Path;
use std::rt::Files;

/// A file that this program has opened for itself alone.
///
/// Once a sync has failed each later call fails: what a read gives then may not be what is on the disk, and a later
/// sync that succeeds need not have written it.
#[derive(Drop)]
pub struct FileDisk {
    file: File,
    faults: u64,
    lost: bool,
}

impl FileDisk {
    fn new(file: File) -> FileDisk
        ensures faults { result.faults ≡ 0 }
        ensures lost { result.lost ≡ false }
    {
        FileDisk {
            file,
            faults: 0,
            lost: false,
        }
    }

    // Fails where a sync has failed.
    fn usable(&mut self) -> Result<(), Failed>
        ensures lost { IsErr result ↔ IsTrue self.old.lost }
        ensures stays { self.new.lost ≡ self.old.lost }
        ensures quiet { OnOk result (self.new.faults ≡ self.old.faults) }
        ensures cause { CountsFailure self.old.faults self.new.faults result }
    {
        if self.lost {
            return Err(fault(&mut self.faults));
        }
        Ok(())
    }
}

impl Disk for FileDisk {
    ghost told = { ⊥ };

    ghost seen = { λ _. [] };

    ghost may_leave = { λ _ _. ⊥ };

    ghost moment = { λ _. 0 };

    ghost left_since = { λ _ _ _. ⊥ };

    ghost fault_count = { λ d. d.faults };

    ghost grows = { λ _ _. Unit {0} };

    ghost growing = { record { same = λ _. tt; on = λ _ _ _ _ _. tt } };

    ghost is_short = { λ none. absurd none };

    ghost seen_may_stay = { λ none. absurd none };

    ghost counts_now = { λ none. absurd none };

    ghost only_now = { λ none. absurd none };

    fn faults(&self) -> u64 {
        self.faults
    }

    fn len(&mut self) -> Result<u64, Failed>
        ensures cause { CountsFailure self.old.faults self.new.faults result }
        ensures quiet { OnOk result (self.new.faults ≡ self.old.faults) }
        ensures lost { IsTrue self.old.lost → IsErr result }
        ensures stays { self.new.lost ≡ self.old.lost }
    {
        self.usable()?;
        let metadata = counted(self.file.metadata(), &mut self.faults)?;
        Ok(metadata.len())
    }

    fn read(&mut self, at: u64, into: &mut [u8]) -> Result<(), Failed>
        ensures cause { CountsFailure self.old.faults self.new.faults result }
        ensures quiet { OnOk result (self.new.faults ≡ self.old.faults) }
        ensures lost { IsTrue self.old.lost → IsErr result }
        ensures stays { self.new.lost ≡ self.old.lost }
    {
        self.usable()?;
        counted(self.file.read_exact_at(into, at), &mut self.faults)
    }

    fn write_at(&mut self, at: u64, bytes: &[u8]) -> Result<(), Failed>
        ensures cause { CountsFailure self.old.faults self.new.faults result }
        ensures quiet { OnOk result (self.new.faults ≡ self.old.faults) }
        ensures lost { IsTrue self.old.lost → IsErr result }
        ensures stays { self.new.lost ≡ self.old.lost }
    {
        self.usable()?;
        counted(self.file.write_all_at(bytes, at), &mut self.faults)
    }

    fn cut(&mut self, len: u64) -> Result<(), Failed>
        ensures cause { CountsFailure self.old.faults self.new.faults result }
        ensures quiet { OnOk result (self.new.faults ≡ self.old.faults) }
        ensures lost { IsTrue self.old.lost → IsErr result }
        ensures stays { self.new.lost ≡ self.old.lost }
    {
        self.usable()?;
        counted(self.file.set_len(len), &mut self.faults)
    }

    fn sync(&mut self) -> Result<(), Failed>
        ensures cause { CountsFailure self.old.faults self.new.faults result }
        ensures quiet { OnOk result (self.new.faults ≡ self.old.faults) }
        ensures lost { IsTrue self.old.lost → IsErr result }
        // A sync that fails loses the disk.
        ensures loses { IsErr result ↔ IsTrue self.new.lost }
    {
        self.usable()?;
        let synced = self.file.sync_data();
        self.lost = synced.is_err();
        counted(synced, &mut self.faults)
    }
}

/// Files by their paths. Taking one opens it, or makes it, for this program alone: it fails where another program has
/// taken it, or this one. What is given back is closed.
#[derive(Drop)]
pub struct FileShelf<'a, R: Files<File = File>> {
    files: &'a R,
    faults: u64,
}

impl<'a, R: Files<File = File>> FileShelf<'a, R> {
    pub fn new(files: &'a R) -> FileShelf<'a, R> {
        FileShelf { files, faults: 0 }
    }
}

impl<R: Files<File = File>> Shelf for FileShelf<'_, R> {
    type D = FileDisk;

    ghost told = { ⊥ };

    ghost slot = { λ _ _. unknown };

    ghost fault_count = { λ s. s.faults };

    ghost disks_tell = { λ none. none };

    fn faults(&self) -> u64 {
        self.faults
    }

    fn take(&mut self, name: &str) -> Result<FileDisk, Failed> {
        let file = counted(opened_alone(self.files, name), &mut self.faults)?;
        Ok(FileDisk::new(file))
    }

    fn give(&mut self, _name: &str, _disk: FileDisk) {}
}

// The lock is advisory: it keeps out those that ask for it. The system takes it back where the program ends.
fn opened_alone<R: Files<File = File>>(files: &R, path: &str) -> io::Result<File> {
    let mut options = OpenOptions::new();
    options.read(true).write(true).create(true).mode(0o600);
    let file = options.open(files, path)?;
    file.try_lock()?;
    if file.metadata()?.len() == 0 {
        sync_folder(files, path)?;
    }
    Ok(file)
}

// Before anything is written to a new file its folder's entry is on the disk.
fn sync_folder<R: Files<File = File>>(files: &R, path: &str) -> io::Result<()> {
    let folder = match Path::new(path).parent() {
        Some(folder) if !folder.as_str().is_empty() => folder,
        _ => Path::new("."),
    };
    File::open(files, folder)?.sync_all()
}
