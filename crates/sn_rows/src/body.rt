//! What a device's row has of an item's content.

ghost use Rattle.std.specs.Prelude.{◌≡◌, ◌↔◌, IsSome, IfSome, IsTrue};
ghost use Rattle.sn_rows.specs.Bounds.{HasDeviceLengths, is_device_string};

use crate::texts::is_device_text;
use sn_string::{Text, TryClone};
use std::alloc::{AllocError, Global};

/// The two strings of a sealed item in a device's row. Each has at most 1,048,576 bytes before its
/// last colon (in all, where it has none), and at most 8,192 after it.
#[derive(Drop)]
pub struct RowStrings {
    /// The sealed content.
    pub content: Text,
    /// The sealed item key.
    pub enc: Text,
    pub ghost content_fits: { IsTrue (is_device_string content) },
    pub ghost enc_fits: { IsTrue (is_device_string enc) },
}

impl RowStrings {
    /// The strings, where both are within their bounds.
    pub fn new(content: Text, enc: Text) -> Option<RowStrings>
        ensures within { IsSome result ↔ (HasDeviceLengths content × HasDeviceLengths enc) }
        ensures parts { IfSome result (λ s. (s.content ≡ content) × (s.enc ≡ enc)) }
    {
        if !is_device_text(&content) {
            return None;
        }
        if !is_device_text(&enc) {
            return None;
        }
        Some(RowStrings { content, enc })
    }

    /// Whether both strings are equal.
    pub fn same(&self, other: &RowStrings) -> bool
        ensures { IsTrue result ↔ (self.now ≡ other.now) }
    {
        self.content.same(&other.content) && self.enc.same(&other.enc)
    }
}

impl TryClone for RowStrings {
    fn try_clone(&self, alloc: Global) -> Result<RowStrings, AllocError> {
        let content = self.content.try_clone(alloc)?;
        let enc = self.enc.try_clone(alloc)?;
        Ok(RowStrings { content, enc })
    }
}

/// A version of an item: its deletion, or its sealed strings.
#[derive(Drop)]
pub enum RowBody {
    Deleted,
    Sealed(RowStrings),
}

impl RowBody {
    /// Whether both are deletions, or have equal strings.
    pub fn same(&self, other: &RowBody) -> bool
        ensures { IsTrue result ↔ (self.now ≡ other.now) }
    {
        match (self, other) {
            (RowBody::Deleted, RowBody::Deleted) => true,
            (RowBody::Sealed(a), RowBody::Sealed(b)) => a.same(b),
            _ => false,
        }
    }
}

impl TryClone for RowBody {
    fn try_clone(&self, alloc: Global) -> Result<RowBody, AllocError> {
        match self {
            RowBody::Deleted => Ok(RowBody::Deleted),
            RowBody::Sealed(strings) => Ok(RowBody::Sealed(strings.try_clone(alloc)?)),
        }
    }
}
