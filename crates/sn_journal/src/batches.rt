// The batches of a loaded journal.
ghost use Rattle.std.specs.Prelude.{◌≡◌, ◌≤◌, ℕ, List, [], length, drop};

use crate::Payloads;
use std::alloc::Global;
use std::marker::Model;

/// The batches that loading found, in the bytes of the disk as they were read. A contract sees the bytes of the batches
/// and what stands behind them.
#[derive(Debug, Drop)]
pub struct Batches {
    file: Vec<u8>,
    from: usize,
}

impl Model for Batches {
    ghost Value = { List ℕ };

    ghost view = { λ b. drop b.from b.file.items };

    ghost invariant = { λ b. b.from ≤ length b.file.items };
}

impl Batches {
    pub(crate) fn none(alloc: Global) -> Batches
        ensures { result ≡ [] }
    {
        Batches {
            file: Vec::new(alloc),
            from: 0,
        }
    }

    pub(crate) fn behind_header(file: Vec<u8>) -> Batches
        requires { 16 ≤ length file.items }
        ensures { result ≡ drop 16 file.items }
    {
        Batches { file, from: 16 }
    }

    /// Their payloads, the oldest first. Takes no memory.
    pub fn payloads(&self) -> Payloads<'_>
        ensures { result ≡ self.now }
    {
        Payloads::of(&self.file[self.from..])
    }
}
