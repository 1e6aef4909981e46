//! The devices whose rows are shown.

ghost use Rattle.std.specs.Prelude.{◌≡◌, List, ℕ, Option};
ghost use Rattle.std.specs.Option.{option_copied};
ghost use Rattle.sn_row_map.specs.declared.row_map.RowMap.{RowMap};

use sn_row_map::RowMap;

/// Devices by their names, each with its rows.
pub trait Devices {
    /// The rows of a device, as contracts see them.
    ghost rows_of: { Self → List ℕ → Option RowMap };

    /// The rows of the device of this name; none of one that has not begun.
    fn rows(&self, name: &str) -> Option<&RowMap>
        ensures { option_copied result ≡ rows_of self.now name.now };
}
