//! What became of a piece of a call.

use crate::called::Called;

/// What became of a piece of a call that asks a server.
#[derive(Drop)]
pub(crate) enum PieceEnd<S, D, T> {
    /// The call goes on with the device. So many exchanges were made in it.
    On(S, u64),
    /// It ended.
    Over(Called<S, D, T>),
}
