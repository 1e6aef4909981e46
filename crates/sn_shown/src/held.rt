//! The sets that devices hold, from their rows.

ghost use Rattle.std.specs.Prelude.{◌≡◌, ◌++◌, ◌∷◌, [], List, IfOk, OnOk};
ghost use Rattle.std.specs.BTreeMap.{get};
ghost use Rattle.sn_laws.specs.Lookups.{Bytes};
ghost use Rattle.sn_laws.specs.declared.ideal.Ideal.{Ideal};
ghost use Rattle.sn_row_map.specs.Keys.{key_cmp};
ghost use Rattle.sn_shows.specs.Devices.{ShowsDevice};
ghost use Rattle.sn_rows.specs.declared.key.Key.{Key};
ghost use Rattle.sn_rows.specs.declared.key.Key.TheVariants as key;
ghost use Rattle.sn_shown.specs.Held.{AreNumbers, AreSets, AreSetsOf, with_held, with_set};
ghost use Rattle.sn_shown.specs.Rows.{rows_in};
ghost use Rattle.sn_shown.specs.Shown.{AreHeld, IsRegular};

use crate::ends::Devices;
use crate::holding::{HeldSet, Holding, holding_of};
use crate::numbers::Numbers;
use sn_rows::Key;
use sn_string::{KeySet, Text};
use std::alloc::{AllocError, Global};
use std::collections::BTreeMap;

/// The sets that these devices hold, by the keys of the server's rows of them.
pub(crate) fn held_sets<D: Devices>(
    alloc: Global,
    numbers: &Numbers,
    names: &[Text],
    devices: &D,
) -> Result<BTreeMap<Key, KeySet>, AllocError>
    ensures { (s : Ideal) → IsRegular s → ((name : Bytes) → ShowsDevice (rows_in (D.rows_of devices.now name)) s name) → AreHeld s names.now
        → AreNumbers numbers.now s.accounts → IfOk result (λ sets. AreSets (get key_cmp sets) s.accounts) }
{
    let mut sets = BTreeMap::new(alloc);
    'names: for name in names {
        add_sets(alloc, &mut sets, numbers, devices, name.as_str())?;
    }
    Ok(sets)
}

// Adds the sets that a device holds.
fn add_sets<D: Devices>(
    alloc: Global,
    sets: &mut BTreeMap<Key, KeySet>,
    numbers: &Numbers,
    devices: &D,
    name: &str,
) -> Result<(), AllocError>
    ensures { (s : Ideal) (names : List Bytes) → IsRegular s → AreNumbers numbers.now s.accounts
        → ShowsDevice (rows_in (D.rows_of devices.now name.now)) s name.now → AreSetsOf (get key_cmp sets.old) s names
        → OnOk result (AreSetsOf (get key_cmp sets.new) s (names ++ name.now ∷ [])) }
{
    let Some(rows) = devices.rows(name) else {
        return Ok(());
    };
    let Some(holding) = holding_of(alloc, numbers, rows)? else {
        return Ok(());
    };
    let Holding {
        account,
        present,
        older,
    } = holding;
    add_older(sets, account, older)?;
    add_set(sets, account, present)
}

// Adds a set of an account.
fn add_set(sets: &mut BTreeMap<Key, KeySet>, account: u64, held: HeldSet) -> Result<(), AllocError>
    ensures { OnOk result ((name : Key) → get key_cmp sets.new name ≡ with_set (get key_cmp sets.old) (key.Generation account held.number) held.set name) }
{
    sets.insert(Key::Generation(account, held.number), held.set)?;
    Ok(())
}

// Adds the older set of a device, where it holds one.
fn add_older(
    sets: &mut BTreeMap<Key, KeySet>,
    account: u64,
    older: Option<HeldSet>,
) -> Result<(), AllocError>
    ensures { OnOk result ((name : Key) → get key_cmp sets.new name ≡ with_held (get key_cmp sets.old) account older name) }
{
    match older {
        Some(held) => add_set(sets, account, held),
        None => Ok(()),
    }
}
