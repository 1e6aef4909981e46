//! What a call is, as far as its moves need it.

use sn_string::{KeySet, Text};

/// A call of a device.
#[derive(Drop)]
pub enum Calling {
    /// Its set is derived from the password; none where the cost isn't taken.
    Register {
        identifier: Text,
        set: Option<KeySet>,
    },
    SignIn {
        identifier: Text,
    },
    Put {
        kind: Text,
        text: Text,
    },
    Edit {
        text: Text,
    },
    Delete,
    Sync,
    /// A change of password. The set that it asks for stands in the device's rows.
    Passwd,
}
