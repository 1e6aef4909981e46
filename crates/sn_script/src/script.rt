//! A script and its lines.

ghost use Rattle.std.specs.Prelude.{◌≡◌};
ghost use Rattle.sn_script.specs.declared.script.ScriptError.TheVariants.{Memory};

use sn_string::{OwnedList, Text};
use std::alloc::AllocError;
use thiserror::Error;

/// Which one of several a line names, the first being 1: a request that the line makes, a label, or a
/// request that the device ever made.
#[derive(Clone, Copy, Debug, PartialEq, Eq)]
pub enum Ordinal {
    Nth(u64),
    /// A number of more than 64 bits. There are never so many of anything.
    Beyond,
}

/// What is lost of the requests that a line makes. Where it makes fewer, nothing is.
#[derive(Clone, Copy, Debug, PartialEq, Eq)]
pub enum Fate {
    /// This request isn't delivered.
    DropRequest(Ordinal),
    /// This request is delivered, and its answer is lost.
    DropReply(Ordinal),
}

/// A line of a script.
#[derive(Drop)]
pub enum Line {
    /// The seed of all that is drawn. Each line draws from this seed with its own number mixed in.
    Seed([u8; 32]),
    /// The cost of key sets that are made later.
    Cost(u32),
    /// The time on the server's clock, in microseconds since 1970.
    Clock(u64),
    Register {
        /// A name of 1 to 8 letters or digits, here and below.
        device: Text,
        /// 1 to 254 bytes, as the password; so where a device signs in.
        identifier: Text,
        password: Text,
        fates: OwnedList<Fate>,
    },
    SignIn {
        device: Text,
        identifier: Text,
        password: Text,
        fates: OwnedList<Fate>,
    },
    /// A new item with this content.
    Put {
        device: Text,
        fates: OwnedList<Fate>,
        text: Text,
    },
    /// The item of this label gets this content. No label has number 0.
    Edit {
        device: Text,
        label: Ordinal,
        fates: OwnedList<Fate>,
        text: Text,
    },
    Delete {
        device: Text,
        label: Ordinal,
        fates: OwnedList<Fate>,
    },
    Sync {
        device: Text,
        fates: OwnedList<Fate>,
    },
    /// The device's account gets this password, of 1 to 254 bytes.
    Passwd {
        device: Text,
        password: Text,
        fates: OwnedList<Fate>,
    },
    /// Of the requests that the device ever made, delivered or not, this one is delivered once more.
    Late {
        device: Text,
        request: Ordinal,
    },
    Show,
}

/// The lines of a script. The first has number 1.
#[derive(Drop)]
pub struct Script {
    pub lines: OwnedList<Line>,
}

/// Why a script is refused.
#[derive(Clone, Copy, Debug, PartialEq, Eq, Error)]
pub enum ScriptError {
    /// The first line that is out of the grammar, counted from 1.
    #[error("line {number} is no line of a script")]
    Line { number: u64 },
    #[error("out of memory")]
    Memory,
}

impl From<AllocError> for ScriptError {
    ghost from_gives = { λ _ e. e ≡ Memory };

    fn from(_: AllocError) -> ScriptError {
        ScriptError::Memory
    }
}
