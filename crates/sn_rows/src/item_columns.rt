//! The columns of an item's row on a server.

ghost use Rattle.std.specs.Prelude.{◌≡◌, ◌≤◌, IsTrue, false, length};
ghost use Rattle.sn_rows.specs.Bounds.{is_server_string, is_type_or_empty, last_stamp};

use sn_string::Text;

/// The columns of an item's row, as contracts see an `ItemRow`, which keeps them in less memory. The type has 1 to 255
/// bytes, and may be empty in a deleted item; a string has at most 1,048,576.
#[derive(Drop)]
pub struct ItemColumns {
    /// The number of the account.
    pub account: u64,
    /// The item's type.
    pub kind: Text,
    /// The stamp of the first acceptance.
    pub created: u64,
    /// The stamp of the last acceptance.
    pub updated: u64,
    pub deleted: bool,
    /// The sealed content.
    pub content: Text,
    /// The sealed item key.
    pub enc: Text,
    pub ghost kind_fits: { IsTrue (is_type_or_empty kind) },
    pub ghost kind_stands: { deleted ≡ false → 1 ≤ length kind },
    pub ghost created_fits: { created ≤ last_stamp },
    pub ghost updated_fits: { updated ≤ last_stamp },
    pub ghost content_fits: { IsTrue (is_server_string content) },
    pub ghost enc_fits: { IsTrue (is_server_string enc) },
}
