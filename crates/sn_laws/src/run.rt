// A step, and the first move of a list that isn't allowed.

ghost use Rattle.std.specs.Prelude.{◌≡◌, IfOk};
ghost use Rattle.sn_laws.specs.Lookups.{empty};
ghost use Rattle.sn_laws.specs.Runs.{first_illegal, step_of};

use crate::allowed::is_allowed;
use crate::effects::apply;
use crate::ideal::Ideal;
use crate::moves::Move;
use sn_string::OwnedList;
use std::alloc::{AllocError, Global};

impl Ideal {
    /// The state before any move. Takes no memory.
    pub fn new(alloc: Global) -> Ideal
        ensures { result ≡ empty }
    {
        Ideal {
            accounts: OwnedList::new(alloc),
            drafts: OwnedList::new(alloc),
            devices: OwnedList::new(alloc),
        }
    }
}

/// The state after a move that is allowed, none where it isn't.
pub fn step(alloc: Global, state: &Ideal, next: &Move) -> Result<Option<Ideal>, AllocError>
    ensures { IfOk result (λ changed. changed ≡ step_of state.now next.now) }
{
    if is_allowed(alloc, state, next)? {
        let changed = apply(alloc, state, next)?;
        Ok(Some(changed))
    } else {
        Ok(None)
    }
}

/// The least place, from 0, of a move that isn't allowed where it is made; none exactly where each is.
pub fn first_illegal(alloc: Global, moves: &[Move]) -> Result<Option<usize>, AllocError>
    ensures { IfOk result (λ place. place ≡ first_illegal moves.now) }
{
    let mut state = Ideal::new(alloc);
    for (place, next) in moves.iter().enumerate() {
        match step(alloc, &state, next)? {
            Some(changed) => state = changed,
            None => return Ok(Some(place)),
        }
    }
    Ok(None)
}
