//! A server without accounts.

ghost use Rattle.std.specs.Prelude.{◌≡◌, IfOk};
ghost use Rattle.sn_account.specs.Sound.{IsSound};
ghost use Rattle.sn_account.specs.States.{IsUnmarked, first_rows, state_rows};
ghost use Rattle.sn_rows.specs.declared.key.Key.{Key};
ghost use Rattle.sn_rows.specs.declared.server_rows.StoreRow.{StoreRow};

use crate::state::State;
use sn_rows::{Key, StoreRow, Value};
use sn_string::OwnedList;
use std::alloc::{AllocError, Global};

/// The state of a server that has a secret, has given no stamp, and has no accounts.
pub fn first_state(alloc: Global, secret: [u8; 32]) -> Result<State, AllocError>
    ensures unmarked { IfOk result IsUnmarked }
    ensures sound { IfOk result (λ state. IsSound (state_rows state)) }
    ensures rows { IfOk result (λ state. (store : StoreRow) × (store.secret ≡ secret) × (store.last ≡ 0) × (store.accounts ≡ 0)
        × ((key : Key) → state_rows state key ≡ first_rows store key)) }
{
    let store = first_store(secret);
    let mut rows = OwnedList::new(alloc);
    rows.push((Key::Store, Value::Store(store)))?;
    State::of(alloc, rows)
}

fn first_store(secret: [u8; 32]) -> StoreRow
    ensures secret { result.secret ≡ secret }
    ensures last { result.last ≡ 0 }
    ensures accounts { result.accounts ≡ 0 }
{
    match StoreRow::new(secret, 0, 0) {
        Some(row) => row,
        None => unreachable!(),
    }
}
