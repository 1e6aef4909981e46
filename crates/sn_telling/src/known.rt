//! What is known of a request.

use sn_sync::Request;

/// What is known of a request: of a sync that it is one, since no move depends on what it sends, and any other whole.
#[derive(Drop)]
pub enum Known {
    Sync,
    Other(Request),
}
