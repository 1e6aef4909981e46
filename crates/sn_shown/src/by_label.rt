//! Lines by the labels of their items.

ghost use Rattle.std.specs.Prelude.{◌≡◌, ◌++◌, OnOk};
ghost use Rattle.std.specs.BTreeMap.{values};

use sn_string::{OwnedList, Text};
use std::alloc::AllocError;
use std::collections::BTreeMap;

/// Adds lines in order of label.
pub(crate) fn add_values(
    lines: &mut OwnedList<Text>,
    mut by_label: BTreeMap<u64, Text>,
) -> Result<(), AllocError>
    ensures { OnOk result (lines.new ≡ lines.old ++ values by_label) }
{
    'lines: while let Some((_, line)) = by_label.pop_first() {
        lines.push(line)?;
    }
    Ok(())
}
