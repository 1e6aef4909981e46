// Whose journal it is.

/// Whose journal it is. The header names it by a letter.
#[derive(Clone, Copy, Debug, PartialEq, Eq)]
pub enum Owner {
    /// A server, `S`.
    Server,
    /// A device, `D`.
    Device,
}
