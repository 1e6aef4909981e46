//! The kinds of rows, and their numbers in the bytes.

ghost use Rattle.std.specs.Prelude.{◌≡◌};
ghost use Rattle.sn_rows.specs.Kinds.{kind_number, kind_of_number};

/// A kind of row. The server has the first four, a device the others.
#[derive(Clone, Copy, Debug, PartialEq, Eq)]
pub enum RowKind {
    /// The server's secret and counters.
    Store,
    /// An account.
    Account,
    /// The parameters of a generation of an account's keys.
    Generation,
    /// An item on the server.
    Item,
    /// The account of a device, with its tokens.
    Owner,
    /// A key set of a device.
    Set,
    /// An item on a device.
    Local,
}

impl RowKind {
    /// The number that stands for the kind in the bytes.
    pub fn number(self) -> u8
        ensures { result ≡ kind_number self }
    {
        match self {
            RowKind::Store => 1,
            RowKind::Account => 2,
            RowKind::Generation => 3,
            RowKind::Item => 4,
            RowKind::Owner => 17,
            RowKind::Set => 18,
            RowKind::Local => 19,
        }
    }

    /// The kind of a number.
    pub fn of_number(number: u8) -> Option<RowKind>
        ensures { result ≡ kind_of_number number }
    {
        match number {
            1 => Some(RowKind::Store),
            2 => Some(RowKind::Account),
            3 => Some(RowKind::Generation),
            4 => Some(RowKind::Item),
            17 => Some(RowKind::Owner),
            18 => Some(RowKind::Set),
            19 => Some(RowKind::Local),
            _ => None,
        }
    }
}
