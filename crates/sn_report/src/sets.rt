//! The numbers of sets by their nonces.

ghost use Rattle.std.specs.Prelude.{◌≡◌, ◌++◌, ◌∷◌, [], find, IfOk, OnOk, string_bytes};
ghost use Rattle.std.specs.Option.{option_copied};
ghost use Rattle.sn_report.specs.Sets.{has_nonce, nonce_text, sets_after, sets_of};

use sn_laws::Move;
use sn_string::{KeySet, OwnedList, Text, TryClone};
use std::alloc::{AllocError, Global};
use std::fmt::Write;

/// A set of an account, with its number there.
#[derive(Drop)]
pub struct NumberedSet {
    pub nonce: Text,
    pub number: u64,
}

// The set that a move begins, behind those of the moves before it.
fn add_set(alloc: Global, sets: &mut OwnedList<NumberedSet>, made: &Move) -> Result<(), AllocError>
    ensures { OnOk result (sets.new ≡ sets_after sets.old made.now) }
{
    match made {
        Move::Register { set, .. } => push_set(alloc, sets, set, 1),
        Move::Change { number, set, .. } => push_set(alloc, sets, set, *number),
        Move::Join { .. }
        | Move::Edit { .. }
        | Move::Drop { .. }
        | Move::Post { .. }
        | Move::Unpost { .. }
        | Move::Accept { .. }
        | Move::Rewrap { .. }
        | Move::Settle { .. }
        | Move::SettlePosted { .. }
        | Move::Fork { .. }
        | Move::Rename { .. }
        | Move::GiveWay { .. }
        | Move::Retire { .. } => Ok(()),
    }
}

fn push_set(
    alloc: Global,
    sets: &mut OwnedList<NumberedSet>,
    set: &KeySet,
    number: u64,
) -> Result<(), AllocError>
    ensures { OnOk result (sets.new ≡ sets.old ++ record { nonce = set.now.params.pw_nonce; number = number } ∷ []) }
{
    let nonce = set.params.pw_nonce.try_clone(alloc)?;
    sets.push(NumberedSet { nonce, number })
}

/// The sets that moves begin, behind those of the moves before them.
pub(crate) fn add_sets(
    alloc: Global,
    sets: &mut OwnedList<NumberedSet>,
    moves: &[Move],
) -> Result<(), AllocError>
    ensures { OnOk result (sets.new ≡ sets_of sets.old moves.now) }
{
    'moves: for made in moves {
        add_set(alloc, sets, made)?;
    }
    Ok(())
}

/// The number of the set of a nonce, as `set 2`.
pub(crate) fn nonce_text(
    alloc: Global,
    sets: &[NumberedSet],
    nonce: &Text,
) -> Result<String, AllocError>
    ensures { IfOk result (λ text. string_bytes text ≡ nonce_text sets.now nonce.now) }
{
    match set_of(sets, nonce) {
        Some(set) => {
            let number = set.number;
            format!(in alloc; "set {number}")
        }
        None => nonce.as_str().to_string(alloc),
    }
}

// The first set of a nonce.
fn set_of<'a>(sets: &'a [NumberedSet], nonce: &Text) -> Option<&'a NumberedSet>
    ensures { option_copied result ≡ find (has_nonce nonce.now) sets.now }
{
    sets.iter().find(|set| has_nonce(set, nonce))
}

fn has_nonce(set: &NumberedSet, nonce: &Text) -> bool
    ensures { result ≡ has_nonce nonce.now set.now }
{
    set.nonce.as_str() == nonce.as_str()
}
