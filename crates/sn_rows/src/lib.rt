//! The rows of both ends: their keys and values, changes of them, and the bytes that spell changes.
#![tactic(auto)]

mod at;
pub mod body;
pub mod boxed;
pub mod change;
pub mod device_rows;
pub mod error;
mod fields;
pub mod item_columns;
pub mod key;
pub mod kind;
mod laws;
mod read_values;
mod reading;
pub mod server_rows;
mod texts;
pub mod value;
mod writing;

pub use body::{RowBody, RowStrings};
pub use boxed::Boxed;
pub use change::{Change, Row};
pub use device_rows::{LocalItem, OwnerRow, SetRow};
pub use error::RowError;
pub use item_columns::ItemColumns;
pub use key::{Key, Slot};
pub use kind::RowKind;
pub use laws::{
    batch_follows, follows, keys_compare, keys_in_order, last_counts, last_or_spared, one_reading,
    one_refusal, one_spelling, put_elsewhere, put_gives, put_here, read_back, removal_gives,
    removed_elsewhere, removed_here, spared_is_none, spared_stays,
};
pub use reading::read;
pub use server_rows::{AccountRow, GenerationRow, ItemRow, StoreRow};
pub use value::Value;
pub use writing::write;
