//! Items, as messages carry them.

ghost use Rattle.sn_sync.specs.Stamps.{IsStampOrNone};

use sn_string::Text;
use uuid::Uuid;

/// What a version of an item holds.
#[derive(Drop)]
pub enum Body {
    Deleted,
    /// The 003 strings of the content and of its item key.
    Strings { content: Text, enc: Text },
}

/// One version of an item.
#[derive(Drop)]
pub struct Item {
    pub uuid: Uuid,
    /// The item's type, 1 to 255 bytes; of a deleted one it may be empty.
    pub kind: Text,
    /// The stamp of the first acceptance, in microseconds since 1970. A sent item has none.
    pub created: Option<u64>,
    /// Of a stored item the text of its stamp. Of a sent one any text that names the version which it
    /// replaces, and nothing where none is known.
    pub updated_at: Option<Text>,
    pub body: Body,
    pub ghost created_fits: { IsStampOrNone created },
}
