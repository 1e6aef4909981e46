//! What a device has: its own row, its key sets and its items, looked up, and the changes that put them.
#![tactic(auto)]

mod behind;
mod changes;
mod fresh;
mod index;
mod state;

pub use behind::{item_at, local_after};
pub use changes::{
    one_change, put_draft, put_local, put_new, put_next, put_owner, put_set, renewed_owner,
    two_changes,
};
pub use fresh::{draw_fresh, fresh_uuid};
pub use index::{Index, changed_numbers};
pub use state::{find, first_waiting, next_waiting, owner, owner_in, set_in, sets_of};
