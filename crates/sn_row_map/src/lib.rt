//! Rows in memory: a map from keys to values, with room that is made before it is needed, and steps from row to row.
#![tactic(auto)]

mod row_map;

pub use row_map::{RowMap, keys_of};
