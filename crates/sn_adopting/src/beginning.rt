//! Whether a change of password may begin.

ghost use Rattle.std.specs.Prelude.{◌≡◌, ◌⊎◌, ℕ, IfErr, IfNone, IfOk, IfSome, None, OnOk};
ghost use Rattle.sn_device.specs.Changing.{IsFirstItem, IsFirstSent, NoneRuns};
ghost use Rattle.sn_device.specs.Runs.{RefusesChange};
ghost use Rattle.sn_device.specs.States.{HasLocal};
ghost use Rattle.sn_device.specs.declared.error.ClientError.TheVariants as refusal;
ghost use Rattle.sn_rekey.specs.Carrying.{IsOfOther};
ghost use Rattle.sn_row_map.specs.RowMaps.{row_in};
ghost use Rattle.sn_table.specs.Logs.{HasKinds};
ghost use Rattle.sn_rows.specs.declared.device_rows.LocalItem.{LocalItem};

use sn_device::ClientError;
use sn_rekey::{RekeyError, Running, is_of_other};
use sn_row_map::RowMap;
use sn_rows::{RowKind, Value};
use sn_sets::Sets;
use sn_string::{KeySet, TryClone};
use std::alloc::{AllocError, Global};
use uuid::Uuid;

/// Whether a change may begin on these rows.
pub fn may_begin(alloc: Global, rows: &RowMap, sets: &Sets) -> Result<(), ClientError>
    requires kinds { HasKinds rows.now }
    ensures ok { OnOk result (NoneRuns (row_in rows.now) sets.now × ((number : ℕ) (local : LocalItem) → HasLocal (row_in rows.now) number local → local.posted ≡ None)) }
    ensures err { IfErr result (λ why. (why ≡ refusal.Memory) ⊎ RefusesChange (row_in rows.now) sets.now why) }
{
    if let Some(older) = &sets.older {
        let nonce = older.params.pw_nonce.try_clone(alloc)?;
        return Err(running(Running::Older { nonce }));
    }
    if let Some(uuid) = first_of_other(alloc, rows, &sets.present)? {
        return Err(running(Running::Item { uuid }));
    }
    match first_sent(rows) {
        Some(uuid) => Err(ClientError::Rekey {
            error: RekeyError::Unsent { uuid },
        }),
        None => Ok(()),
    }
}

// The refusal while a change runs.
fn running(by: Running) -> ClientError
    ensures { result ≡ refusal.Rekey (RekeyError.ChangeRunning by) }
{
    ClientError::Rekey {
        error: RekeyError::ChangeRunning { by },
    }
}

// The first item of which a version is sealed under another set than the present one.
fn first_of_other(
    alloc: Global,
    rows: &RowMap,
    present: &KeySet,
) -> Result<Option<Uuid>, AllocError>
    requires kinds { HasKinds rows.now }
    ensures some { IfOk result (λ found. IfSome found (IsFirstItem (row_in rows.now) (IsOfOther present.now))) }
    ensures none { IfOk result (λ found. IfNone found ((number : ℕ) (local : LocalItem) → HasLocal (row_in rows.now) number local → ¬ (IsOfOther present.now local))) }
{
    let mut found = rows.first(RowKind::Local);
    'items: while let Some((key, value)) = found {
        let Value::Local(item) = value else {
            unreachable!();
        };
        let item = item.get();
        if is_of_other(alloc, item, present)? {
            return Ok(Some(item.uuid));
        }
        found = rows.next_after(key);
    }
    Ok(None)
}

// The first item that was sent and isn't answered.
fn first_sent(rows: &RowMap) -> Option<Uuid>
    requires kinds { HasKinds rows.now }
    ensures some { IfSome result (IsFirstSent (row_in rows.now)) }
    ensures none { IfNone result ((number : ℕ) (local : LocalItem) → HasLocal (row_in rows.now) number local → local.posted ≡ None) }
{
    let mut found = rows.first(RowKind::Local);
    'items: while let Some((key, value)) = found {
        let Value::Local(item) = value else {
            unreachable!();
        };
        let item = item.get();
        if item.posted.is_some() {
            return Some(item.uuid);
        }
        found = rows.next_after(key);
    }
    None
}
