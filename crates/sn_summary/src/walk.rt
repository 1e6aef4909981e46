//! A walk through a report's moves.

ghost use Rattle.std.specs.Prelude.{◌≡◌, ◌+◌, ◌∷◌, [], cond, IfOk, OnOk};
ghost use Rattle.sn_summary.specs.Items.{makes_fork, makes_version};
ghost use Rattle.sn_summary.specs.Walks.{GoesOn, IsAfter};

use crate::drafts::{DraftKey, note_drafts};
use crate::live::note_live;
use sn_laws::Move;
use std::alloc::{AllocError, Global};
use std::collections::BTreeSet;
use uuid::Uuid;

/// What the moves so far come to.
#[derive(Drop)]
pub(crate) struct Walk {
    alloc: Global,
    pub(crate) live: BTreeSet<Uuid>,
    pub(crate) drafts: BTreeSet<DraftKey>,
    pub(crate) versions: u64,
    pub(crate) forks: u64,
}

fn makes_version(made: &Move) -> bool
    ensures { result ≡ makes_version made.now }
{
    matches!(made, Move::Accept { .. } | Move::Rewrap { .. })
}

fn makes_fork(made: &Move) -> bool
    ensures { result ≡ makes_fork made.now }
{
    matches!(made, Move::Fork { .. })
}

// The count, and one more where there is one. A report whose moves are more than can be counted fits
// no memory.
fn counted(count: u64, one: bool) -> Result<u64, AllocError>
    ensures { IfOk result (λ more. more ≡ count + cond one 1 0) }
{
    if !one {
        return Ok(count);
    }
    match count.checked_add(1) {
        Some(more) => Ok(more),
        None => Err(AllocError),
    }
}

impl Walk {
    /// A walk that has come to no moves. Takes no memory.
    pub(crate) fn new(alloc: Global) -> Walk
        ensures { IsAfter result [] }
    {
        Walk {
            alloc,
            live: BTreeSet::new(alloc),
            drafts: BTreeSet::new(alloc),
            versions: 0,
            forks: 0,
        }
    }

    // Goes on by a move.
    fn step(&mut self, made: &Move) -> Result<(), AllocError>
        ensures { OnOk result (GoesOn self.old self.new (made.now ∷ [])) }
    {
        note_live(&mut self.live, made)?;
        note_drafts(self.alloc, &mut self.drafts, made)?;
        self.versions = counted(self.versions, makes_version(made))?;
        self.forks = counted(self.forks, makes_fork(made))?;
        Ok(())
    }

    /// Goes on by moves.
    pub(crate) fn add_moves(&mut self, moves: &[Move]) -> Result<(), AllocError>
        ensures { OnOk result (GoesOn self.old self.new moves.now) }
    {
        'moves: for made in moves {
            self.step(made)?;
        }
        Ok(())
    }
}
