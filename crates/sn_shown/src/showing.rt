//! What `show` prints.

ghost use Rattle.std.specs.Prelude.{◌≡◌, ℕ, IfOk, Option};
ghost use Rattle.sn_laws.specs.Lookups.{Bytes};
ghost use Rattle.sn_laws.specs.declared.ideal.Ideal.{Ideal};
ghost use Rattle.sn_report.specs.Showing.{show_lines};
ghost use Rattle.sn_row_map.specs.RowMaps.{row_in};
ghost use Rattle.sn_shown.specs.Closed.{AreClosed};
ghost use Rattle.sn_shown.specs.Rows.{rows_in};
ghost use Rattle.sn_shown.specs.Shown.{EndsShow};

use crate::account_lines::add_accounts;
use crate::device_lines::add_devices;
use crate::ends::Devices;
use crate::held::held_sets;
use crate::numbers::Numbers;
use sn_report::Labels;
use sn_row_map::RowMap;
use sn_string::{OwnedList, Text};
use std::alloc::{AllocError, Global};

/// The lines that show what both ends hold, from the server's rows and those of the devices of these
/// names: each account, in the order in which they began, with its items in order of their least
/// labels, and then each device, in the order of the names, with its drafts and behind them what is
/// closed to it. Each string is opened once, also where an item has several labels.
pub fn show<D: Devices>(
    alloc: Global,
    labels: &Labels,
    names: &[Text],
    server: &RowMap,
    devices: &D,
) -> Result<OwnedList<Text>, AllocError>
    ensures { (s : Ideal) → EndsShow (row_in server.now) (λ name. rows_in (D.rows_of devices.now name)) names.now s
        → IfOk result (λ lines. (closed : Bytes → Bytes → Option ℕ) × AreClosed (λ name. rows_in (D.rows_of devices.now name)) s closed
        × (lines ≡ show_lines labels.now names.now s closed)) }
{
    let numbers = Numbers::of_rows(alloc, server)?;
    let sets = held_sets(alloc, &numbers, names, devices)?;
    let mut lines = OwnedList::new(alloc);
    add_accounts(alloc, &mut lines, labels, server, &numbers, &sets)?;
    add_devices(alloc, &mut lines, labels, names, &numbers, devices)?;
    Ok(lines)
}
