//! The lines that show the devices.

ghost use Rattle.std.specs.Prelude.{◌≡◌, ◌++◌, ◌∷◌, [], ℕ, OnOk, Option};
ghost use Rattle.std.specs.List.{flat_map};
ghost use Rattle.sn_laws.specs.Lookups.{Bytes};
ghost use Rattle.sn_laws.specs.declared.ideal.Ideal.{Ideal};
ghost use Rattle.sn_report.specs.Showing.{device_lines, none_text};
ghost use Rattle.sn_row_map.specs.RowMaps.{row_in};
ghost use Rattle.sn_shows.specs.Devices.{ShowsDevice};
ghost use Rattle.sn_shown.specs.Closed.{AreClosed, AreClosedTo};
ghost use Rattle.sn_shown.specs.Held.{AreNumbers, IsHolding};
ghost use Rattle.sn_shown.specs.Rows.{rows_in};
ghost use Rattle.sn_shown.specs.Shown.{IsRegular};

use crate::closed_lines::add_closed;
use crate::draft_lines::add_drafts;
use crate::ends::Devices;
use crate::holding::{Holding, holding_of};
use crate::numbers::Numbers;
use sn_report::{Labels, device_line, no_account_line};
use sn_row_map::RowMap;
use sn_string::{OwnedList, Text};
use std::alloc::{AllocError, Global};

/// Adds the lines of each of these devices, in this order: the device, its drafts in order of label,
/// and what is closed to it, in order of label.
pub(crate) fn add_devices<D: Devices>(
    alloc: Global,
    lines: &mut OwnedList<Text>,
    labels: &Labels,
    names: &[Text],
    numbers: &Numbers,
    devices: &D,
) -> Result<(), AllocError>
    ensures { (s : Ideal) (closed : Bytes → Bytes → Option ℕ) → IsRegular s → ((name : Bytes) → ShowsDevice (rows_in (D.rows_of devices.now name)) s name)
        → AreNumbers numbers.now s.accounts → AreClosed (λ name. rows_in (D.rows_of devices.now name)) s closed
        → OnOk result (lines.new ≡ lines.old ++ flat_map (device_lines labels.now s closed) names.now) }
{
    'names: for name in names {
        let name = name.as_str();
        add_device(alloc, lines, labels, numbers, devices, name)?;
    }
    Ok(())
}

// Adds the lines of a device.
fn add_device<D: Devices>(
    alloc: Global,
    lines: &mut OwnedList<Text>,
    labels: &Labels,
    numbers: &Numbers,
    devices: &D,
    name: &str,
) -> Result<(), AllocError>
    ensures { (s : Ideal) (closed : Bytes → Bytes → Option ℕ) → IsRegular s → AreNumbers numbers.now s.accounts
        → ShowsDevice (rows_in (D.rows_of devices.now name.now)) s name.now
        → AreClosedTo (rows_in (D.rows_of devices.now name.now)) s name.now (closed name.now)
        → OnOk result (lines.new ≡ lines.old ++ device_lines labels.now s closed name.now) }
{
    let Some(rows) = devices.rows(name) else {
        return add_none(alloc, lines, name);
    };
    let Some(holding) = holding_of(alloc, numbers, rows)? else {
        return add_none(alloc, lines, name);
    };
    add_holder(alloc, lines, labels, rows, numbers, &holding, name)
}

// Adds the line of a device without an account.
fn add_none(alloc: Global, lines: &mut OwnedList<Text>, name: &str) -> Result<(), AllocError>
    ensures { OnOk result (lines.new ≡ lines.old ++ none_text name.now ∷ []) }
{
    let line = no_account_line(alloc, name)?;
    lines.push(line)
}

// Adds the lines of a device that holds sets. Its drafts are sealed under the present one.
fn add_holder(
    alloc: Global,
    lines: &mut OwnedList<Text>,
    labels: &Labels,
    rows: &RowMap,
    numbers: &Numbers,
    holding: &Holding,
    name: &str,
) -> Result<(), AllocError>
    ensures { (s : Ideal) (closed : Bytes → Bytes → Option ℕ) → ShowsDevice (row_in rows.now) s name.now → IsHolding s name.now holding.now
        → AreNumbers numbers.now s.accounts → AreClosedTo (row_in rows.now) s name.now (closed name.now)
        → OnOk result (lines.new ≡ lines.old ++ device_lines labels.now s closed name.now) }
{
    let held = holding.numbers(alloc)?;
    let present = &holding.present.set;
    let line = device_line(
        alloc,
        name,
        present.params.identifier.as_str(),
        held.as_slice(),
    )?;
    lines.push(line)?;
    add_drafts(alloc, lines, labels, rows, present, name)?;
    add_closed(alloc, lines, labels, rows, numbers, holding, name)
}
