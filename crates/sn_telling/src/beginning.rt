//! The set that a request would begin.

ghost use Rattle.std.specs.Prelude.{◌≡◌, IfOk, Some};
ghost use Rattle.sn_device.specs.States.{IsSetOf};
ghost use Rattle.sn_row_map.specs.RowMaps.{row_in};
ghost use Rattle.sn_string.specs.declared.params.KeySet.{KeySet};
ghost use Rattle.sn_telling.specs.Walking.{IsBegunIn, set_given};
ghost use Rattle.sn_telling.specs.declared.known.Known.TheVariants as known;
ghost use Rattle.sn_world.specs.Calls.{IsAskedFor};

use crate::calling::Calling;
use crate::known::Known;
use sn_row_map::RowMap;
use sn_rows::{Key, OwnerRow, SetRow, Slot, Value};
use sn_string::{KeySet, Params, TryClone};
use sn_sync::Request;
use std::alloc::{AllocError, Global};

/// The set that a request would begin, by the rows of the device that sends it: a registration that of its call, and a
/// change of password the one that is asked for.
pub(crate) fn begun_in(
    alloc: Global,
    calling: &Calling,
    device: &RowMap,
    request: &Option<Known>,
) -> Result<Option<KeySet>, AllocError>
    ensures { IfOk result (IsBegunIn calling.now (row_in device.now) request.now) }
{
    match request {
        None | Some(Known::Sync) => Ok(None),
        Some(Known::Other(request)) => begun_by(alloc, calling, device, request),
    }
}

// The set that a request would begin that is known.
fn begun_by(
    alloc: Global,
    calling: &Calling,
    device: &RowMap,
    request: &Request,
) -> Result<Option<KeySet>, AllocError>
    ensures { IfOk result (IsBegunIn calling.now (row_in device.now) (Some (known.Other request.now))) }
{
    match request {
        Request::Register { .. } => set_given(alloc, calling),
        Request::ChangePw { .. } => asked_in(alloc, device),
        Request::Params { .. } => Ok(None),
        Request::SignIn { .. } => Ok(None),
        Request::Sync { .. } => Ok(None),
    }
}

// The set that a registration gives.
fn set_given(alloc: Global, calling: &Calling) -> Result<Option<KeySet>, AllocError>
    ensures { IfOk result (λ set. set ≡ set_given calling.now) }
{
    match calling {
        Calling::Register { set, .. } => set.try_clone(alloc),
        Calling::SignIn { .. }
        | Calling::Put { .. }
        | Calling::Edit { .. }
        | Calling::Delete
        | Calling::Sync
        | Calling::Passwd => Ok(None),
    }
}

// The set that a device keeps as asked for.
fn asked_in(alloc: Global, rows: &RowMap) -> Result<Option<KeySet>, AllocError>
    ensures { IfOk result (λ found. (set : KeySet) → IsAskedFor (row_in rows.now) set → found ≡ Some set) }
{
    let Some(Value::Owner(owner)) = rows.get(&Key::Owner) else {
        return Ok(None);
    };
    let Some(Value::Set(keys)) = rows.get(&Key::Set(Slot::Asked)) else {
        return Ok(None);
    };
    let set = key_set(alloc, owner.get(), keys.get())?;
    Ok(Some(set))
}

// The key set of a row, for the account.
fn key_set(alloc: Global, owner: &OwnerRow, keys: &SetRow) -> Result<KeySet, AllocError>
    ensures { IfOk result (IsSetOf owner.now.identifier keys.now) }
{
    let identifier = owner.identifier.try_clone(alloc)?;
    let nonce = keys.pw_nonce.try_clone(alloc)?;
    match Params::new(identifier, keys.pw_cost, nonce) {
        Some(params) => Ok(KeySet {
            params,
            pw: keys.pw,
            mk: keys.mk,
            ak: keys.ak,
        }),
        None => unreachable!(),
    }
}
