//! How a call of a device ended.

use sn_device::ClientError;

/// How a call of a device `S` on a disk `D` ended.
#[derive(Drop)]
pub enum Called<S, D, T> {
    /// It is answered, and all that it changed is kept, also in a crash.
    Done(S, T),
    /// It is refused. The device is as at its last commit.
    Refused(S, ClientError),
    /// The disk failed in a commit, and is to be loaded again: it has all of that commit or nothing.
    Broken(D),
}
