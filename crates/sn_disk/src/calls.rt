// The changing calls of a disk in memory, and what they do to bytes.
ghost use Rattle.std.specs.Prelude.{◌≡◌, IfOk, OnOk, OnErr};
ghost use Rattle.sn_disk.specs.Disk.{overwritten};
ghost use Rattle.sn_disk.specs.Record.{step_of};
ghost use Rattle.sn_disk.specs.Steps.{after_step};

use std::alloc::AllocError;

/// A changing call.
#[derive(Clone, Copy)]
pub(crate) enum Call<'b> {
    /// Bytes are written from this place on.
    Write { at: u64, bytes: &'b [u8] },
    /// The bytes from this length on are cut off.
    Cut { len: u64 },
    /// What reads give becomes what a crash leaves.
    Sync,
}

/// Does the call to these bytes. Where memory is wanting they stay as they were.
pub(crate) fn apply(file: &mut Vec<u8>, call: Call<'_>) -> Result<(), AllocError>
    ensures ok { OnOk result (file.new.items ≡ after_step file.old.items (step_of call.entry)) }
    ensures err { OnErr result (file.new.items ≡ file.old.items) }
{
    match call {
        Call::Write { at, bytes } => overwrite(file, at, bytes),
        Call::Cut { len } => {
            file.truncate(len as usize);
            Ok(())
        }
        Call::Sync => Ok(()),
    }
}

/// Writes over what is there, and past the end.
pub(crate) fn overwrite(file: &mut Vec<u8>, at: u64, bytes: &[u8]) -> Result<(), AllocError>
    ensures ok { OnOk result (file.new.items ≡ overwritten file.old.items at bytes.now) }
    ensures err { OnErr result (file.new.items ≡ file.old.items) }
{
    let from = file.len().min(at as usize);
    let within = bytes.len().min(file.len() - from);
    file.extend_from_slice(&bytes[within..])?;
    file[from..from + within].copy_from_slice(&bytes[..within]);
    Ok(())
}
