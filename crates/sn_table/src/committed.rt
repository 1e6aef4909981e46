// What became of a commit.

/// Why changes were refused.
#[derive(Clone, Copy, Debug, PartialEq, Eq)]
pub enum CommitError {
    /// The changes are spelled by this many bytes, more than 2^30.
    TooLarge { size: u64 },
    Memory,
}

/// What became of a commit to a store `S` on a disk `D`.
#[derive(Drop)]
pub enum Committed<S, D> {
    /// The store has the changes, and keeps them in a crash.
    Done(S),
    /// The store is as it was, and its disk wasn't called.
    Refused(S, CommitError),
    /// The disk failed, and is to be loaded again: it has all of the changes or none.
    Broken(D),
}
