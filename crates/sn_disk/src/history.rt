// The bytes of a disk in memory with the record of its changing calls.
ghost use Rattle.std.specs.Prelude.{◌≡◌, ◌<◌, ◌≤◌, ◌^◌, [], length, map, IfOk, OnOk, OnErr, IfSome, IfNone};
ghost use Rattle.sn_disk.specs.Record.{EndsHere, Fits, IsUnsynced, Redoes, back_of, first_of, newest_first, step_back, step_of, steps_back};
ghost use Rattle.sn_disk.specs.Steps.{cut_step, stop_step, with_step, write_step};
ghost use Rattle.sn_disk.specs.Images.{image_of, image_now, image_in};

use crate::CrashImage;
use crate::calls::{Call, overwrite};
use crate::images::apply_as;
use crate::undo::{Undo, behind, copied, front, undone};
use std::alloc::{AllocError, Global};
use std::marker::Model;
use std::mem;

// How many calls are noted with no more memory at first: those of a batch of a journal.
const ROOM: usize = 4;

/// The bytes that reads give, and what undoes each changing call, the oldest first. So a file that only grows is kept once.
#[derive(Debug, Drop)]
pub(crate) struct History {
    bytes: Vec<u8>,
    undos: Vec<Undo>,
}

impl Model for History {
    ghost use Rattle.sn_disk.specs.Record.{Redoes, newest_first, told_of};
    ghost use Rattle.sn_disk.specs.Steps.{Told};

    ghost Value = { Told };

    ghost view = { λ h. told_of h.bytes.items h.undos.items };

    ghost invariant = { λ h. Redoes h.bytes.items (newest_first h.undos.items) };
}

impl History {
    pub(crate) fn new(alloc: Global, start: Vec<u8>) -> Result<History, AllocError>
        ensures told { IfOk result (λ history. history ≡ record { start = start.items; bytes = start.items; steps = [] }) }
        ensures short { IfOk result (λ history. length history.bytes < 2 ^ 63) }
    {
        Ok(History {
            bytes: start,
            undos: Vec::with_capacity(alloc, ROOM)?,
        })
    }

    pub(crate) fn copy(&self, alloc: Global) -> Result<History, AllocError>
        ensures { IfOk result (λ history. history ≡ self.now) }
    {
        Ok(History {
            bytes: self.bytes.to_vec(alloc)?,
            undos: copied_undos(alloc, &self.undos)?,
        })
    }

    pub(crate) fn bytes(&self) -> &[u8]
        ensures { result.now ≡ self.now.bytes }
    {
        &self.bytes
    }

    // How many changing calls there were.
    pub(crate) fn moment(&self) -> u64
        ensures { result ≡ length self.now.steps }
    {
        self.undos.len() as u64
    }

    // Does the call and notes it, or leaves all as it was.
    pub(crate) fn make(&mut self, alloc: Global, call: Call<'_>) -> Result<(), AllocError>
        requires { Fits self.old.bytes call }
        ensures ok { OnOk result (self.new ≡ with_step self.old (step_of call.entry)) }
        ensures short { OnOk result (length self.new.bytes < 2 ^ 63) }
        ensures err { OnErr result (self.new ≡ self.old) }
    {
        match call {
            Call::Write { at, bytes } => self.write(alloc, at, bytes),
            Call::Cut { len } => self.cut(alloc, len),
            Call::Sync => {
                self.undos.push(Undo::Sync)?;
                Ok(())
            }
        }
    }

    fn write(&mut self, alloc: Global, at: u64, bytes: &[u8]) -> Result<(), AllocError>
        requires { at ≤ length self.old.bytes }
        ensures ok { OnOk result (self.new ≡ with_step self.old (write_step at bytes.now)) }
        ensures short { OnOk result (length self.new.bytes < 2 ^ 63) }
        ensures err { OnErr result (self.new ≡ self.old) }
    {
        let count = bytes.len();
        let over = front(behind(&self.bytes, at as usize), count).to_vec(alloc)?;
        self.undos.reserve(1)?;
        overwrite(&mut self.bytes, at, bytes)?;
        self.undos.push_reserved(Undo::Write { at, count, over });
        Ok(())
    }

    fn cut(&mut self, alloc: Global, len: u64) -> Result<(), AllocError>
        ensures ok { OnOk result (self.new ≡ with_step self.old (cut_step len)) }
        ensures short { OnOk result (length self.new.bytes < 2 ^ 63) }
        ensures err { OnErr result (self.new ≡ self.old) }
    {
        let tail = behind(&self.bytes, len as usize).to_vec(alloc)?;
        self.undos.push(Undo::Cut { len, tail })?;
        self.bytes.truncate(len as usize);
        Ok(())
    }

    // Notes that the disk stopped, and that these bytes are left, or leaves all as it was.
    pub(crate) fn stop(&mut self, left: Vec<u8>) -> Result<(), AllocError>
        ensures ok { OnOk result (self.new ≡ with_step self.old (stop_step left.items)) }
        ensures short { OnOk result (length self.new.bytes < 2 ^ 63) }
        ensures err { OnErr result (self.new ≡ self.old) }
    {
        self.undos.reserve(1)?;
        let before = mem::replace(&mut self.bytes, left);
        self.undos.push_reserved(Undo::Stop { before });
        Ok(())
    }

    // What a crash now leaves.
    pub(crate) fn image(&self, alloc: Global, image: CrashImage) -> Result<Vec<u8>, AllocError>
        ensures { IfOk result (λ bytes. bytes.items ≡ image_now image self.now) }
    {
        image_behind(alloc, image, &self.bytes, &self.undos)
    }

    // What a crash in this call leaves.
    pub(crate) fn image_in(
        &self,
        alloc: Global,
        image: CrashImage,
        call: Call<'_>,
    ) -> Result<Vec<u8>, AllocError>
        ensures { IfOk result (λ bytes. bytes.items ≡ image_in image self.now (step_of call.entry)) }
    {
        let mut left = self.image(alloc, image)?;
        apply_as(alloc, image, &mut left, call)?;
        Ok(left)
    }
}

fn copied_undos(alloc: Global, undos: &[Undo]) -> Result<Vec<Undo>, AllocError>
    ensures { IfOk result (λ copies. map back_of copies.items ≡ map back_of undos.now) }
{
    let mut copies = Vec::with_capacity(alloc, undos.len())?;
    for undo in undos {
        copies.push(copied(alloc, undo)?)?;
    }
    Ok(copies)
}

// What a crash leaves behind the calls that these undo, which led to the file. It goes back to the last sync, and then on from there,
// with a copy of the file for each call since: few, where each write is synced before the next.
fn image_behind(
    alloc: Global,
    image: CrashImage,
    file: &[u8],
    undos: &[Undo],
) -> Result<Vec<u8>, AllocError>
    requires { Redoes file.now (newest_first undos.now) }
    ensures { IfOk result (λ bytes. bytes.items ≡ image_of image (first_of file.now (newest_first undos.now)) (steps_back file.now (newest_first undos.now))) }
{
    let [earlier @ .., last] = undos else {
        return file.to_vec(alloc);
    };
    match call_of(file, last) {
        Some(call) => {
            let before = undone(alloc, file, last)?;
            let mut left = image_behind(alloc, image, &before, earlier)?;
            apply_as(alloc, image, &mut left, call)?;
            Ok(left)
        }
        None => file.to_vec(alloc),
    }
}

// The write or the cut that led to the file. None where it was a sync, or the disk stopped.
fn call_of<'f>(file: &'f [u8], undo: &Undo) -> Option<Call<'f>>
    ensures some { IfSome result (λ call. IsUnsynced (step_of call) × (step_of call ≡ step_back file.now (back_of undo.now))) }
    ensures none { IfNone result (EndsHere (step_back file.now (back_of undo.now))) }
{
    match undo {
        Undo::Write { at, count, .. } => Some(Call::Write {
            at: *at,
            bytes: front(behind(file, *at as usize), *count),
        }),
        Undo::Cut { len, .. } => Some(Call::Cut { len: *len }),
        Undo::Sync | Undo::Stop { .. } => None,
    }
}
