//! The calls of a device.

ghost use Rattle.std.specs.Prelude.{◌≡◌, IfNone, IfSome, None, Some};
ghost use Rattle.sn_calls.specs.Parts.{server_of};

use uuid::Uuid;

/// A call of a device. A server is a name or an address, and behind a colon the port's number. An item's type has 1 to 255
/// bytes, and a content at most 700,000.
#[derive(Clone, Copy, Debug)]
pub enum DeviceCall<'a> {
    /// Registers an account, of an identifier of 1 to 254 bytes. The time goes with the cost.
    Register {
        server: &'a str,
        identifier: &'a str,
        password: &'a str,
        cost: u32,
    },
    /// Signs in to an account. The time goes with the account's cost.
    SignIn {
        server: &'a str,
        identifier: &'a str,
        password: &'a str,
    },
    /// Puts a new item of this type and content.
    Put {
        kind: &'a str,
        text: &'a str,
    },
    /// Gives an item a new content.
    Edit {
        uuid: Uuid,
        text: &'a str,
    },
    /// Deletes an item.
    Delete {
        uuid: Uuid,
    },
    /// Lists the items, by rising local number.
    List,
    /// Gives an item's content.
    Content {
        uuid: Uuid,
    },
    /// Brings the device and its server together.
    Sync {
        server: &'a str,
    },
    /// Changes the account's password. The time goes with the cost.
    ChangePassword {
        server: &'a str,
        password: &'a str,
        cost: u32,
    },
}

impl<'a> DeviceCall<'a> {
    /// The server that it asks.
    pub(crate) fn server(&self) -> Option<&'a str>
        ensures some { IfSome result (λ server. server_of self.now ≡ Some server.now) }
        ensures none { IfNone result (server_of self.now ≡ None) }
    {
        match *self {
            DeviceCall::Register { server, .. }
            | DeviceCall::SignIn { server, .. }
            | DeviceCall::Sync { server }
            | DeviceCall::ChangePassword { server, .. } => Some(server),
            DeviceCall::Put { .. }
            | DeviceCall::Edit { .. }
            | DeviceCall::Delete { .. }
            | DeviceCall::List
            | DeviceCall::Content { .. } => None,
        }
    }
}
