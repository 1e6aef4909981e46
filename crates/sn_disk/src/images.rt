// What a crash leaves, by the caller's choice.
ghost use Rattle.std.specs.Prelude.{◌≡◌, OnOk, OnErr};
ghost use Rattle.sn_disk.specs.Record.{step_of};
ghost use Rattle.sn_disk.specs.Images.{left_of, due, nearer};

use crate::calls::{Call, apply, overwrite};
use std::alloc::{AllocError, Global};

/// What a crash leaves of the calls since the last sync.
#[derive(Clone, Copy, Debug, PartialEq, Eq)]
pub enum CrashImage {
    /// Nothing of them.
    Old,
    /// All of them.
    New,
    /// All of them, with this byte in each place that was written.
    Filled(u8),
}

/// Whether a disk in memory is to stop.
#[derive(Clone, Copy, Debug, PartialEq, Eq)]
pub enum Stop {
    /// It isn't.
    Never,
    /// In the changing call after so many more that were done. This image is left.
    After { calls: u64, image: CrashImage },
}

/// Does to these bytes what a crash leaves of the call. Where memory is wanting they stay as they were.
pub(crate) fn apply_as(
    alloc: Global,
    image: CrashImage,
    file: &mut Vec<u8>,
    call: Call<'_>,
) -> Result<(), AllocError>
    ensures ok { OnOk result (file.new.items ≡ left_of image file.old.items (step_of call.entry)) }
    ensures err { OnErr result (file.new.items ≡ file.old.items) }
{
    match (call, image) {
        (Call::Write { .. }, CrashImage::Old) => Ok(()),
        (Call::Write { at, bytes }, CrashImage::Filled(byte)) => {
            let filled = vec![in alloc; byte; bytes.len()]?;
            overwrite(file, at, &filled)
        }
        (Call::Cut { .. }, CrashImage::Old) => Ok(()),
        _ => apply(file, call),
    }
}

// The image that is left if the next changing call is the one to stop in.
pub(crate) fn image_due(stop: Stop) -> Option<CrashImage>
    ensures { result ≡ due stop }
{
    match stop {
        Stop::After { calls: 0, image } => Some(image),
        _ => None,
    }
}

pub(crate) fn one_call_nearer(stop: Stop) -> Stop
    ensures { result ≡ nearer stop }
{
    match stop {
        Stop::After { calls, image } => Stop::After {
            calls: calls.saturating_sub(1),
            image,
        },
        other => other,
    }
}
