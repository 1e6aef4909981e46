//! What a device tells of its items.

use crate::device::Device;
use sn_device::{ClientError, Listed};
use sn_disk::Disk;
use sn_drafts::{held_sets, lines_of, shown_text, standing_item};
use sn_string::OwnedList;
use uuid::Uuid;

impl<D: Disk> Device<D> {
    ghost use Rattle.std.specs.Prelude.{string_bytes};
    ghost use Rattle.sn_client.specs.Calls.{Tells, device_rows};
    ghost use Rattle.sn_device.specs.Runs.{a_text, content, lines, list};
    ghost use Rattle.sn_device.specs.States.{IsSound};

    /// The content of an item: of its draft, else of the version that it stands on.
    pub fn content(&self, uuid: Uuid) -> Result<String, ClientError>
        requires { IsSound (device_rows self.now) }
        ensures { Tells self.now.least_cost (content uuid) (device_rows self.now) (λ text. a_text (string_bytes text)) result }
    {
        let sets = held_sets(self.alloc, &self.table)?;
        let (_number, item) = standing_item(&self.table, &self.index, uuid)?;
        let text = shown_text(self.alloc, &sets, item)?;
        Ok(text)
    }

    /// A line of each item, by rising local number.
    pub fn list(&self) -> Result<OwnedList<Listed>, ClientError>
        requires { IsSound (device_rows self.now) }
        ensures { Tells self.now.least_cost list (device_rows self.now) (λ found. lines found) result }
    {
        let sets = held_sets(self.alloc, &self.table)?;
        let found = lines_of(self.alloc, &sets, self.table.rows())?;
        Ok(found)
    }
}
