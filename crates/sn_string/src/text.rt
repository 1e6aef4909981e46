//! A text.

ghost use Rattle.std.specs.Prelude.{◌≡◌, ◌↔◌, List, ℕ, length, string_bytes, IfOk, IsTrue};

use std::alloc::{AllocError, Global};
use std::marker::Model;

/// A text, owned or of the program's own. A contract sees the list of its bytes.
#[derive(Debug, Drop)]
pub struct Text {
    kept: Kept,
}

// A text of the program's own is lent for good.
#[derive(Debug, Drop)]
enum Kept {
    Owned(String),
    Fixed(&'static str),
}

impl Model for Text {
    ghost use Rattle.std.specs.Prelude.{ℕ, List};

    ghost Value = { List ℕ };

    ghost use Rattle.sn_string.specs.Texts.{text_bytes};

    ghost view = { text_bytes };
}

impl Text {
    /// A copy of a text.
    pub fn of(alloc: Global, text: &str) -> Result<Text, AllocError>
        ensures { IfOk result (λ t. t ≡ text.now) }
    {
        let text = text.to_string(alloc)?;
        Ok(Text::of_string(text))
    }

    /// The string as a text. Takes no memory.
    pub fn of_string(text: String) -> Text
        ensures { result ≡ string_bytes text }
    {
        Text {
            kept: Kept::Owned(text),
        }
    }

    /// A text of the program's own. Takes no memory, and neither does a copy of it.
    pub fn fixed(text: &'static str) -> Text
        ensures { result ≡ text.now }
    {
        Text {
            kept: Kept::Fixed(text),
        }
    }

    /// The same text once more, without memory where it is of the program's own.
    pub(crate) fn copied(&self, alloc: Global) -> Result<Text, AllocError>
        ensures { IfOk result (λ t. t ≡ self.now) }
    {
        match &self.kept {
            Kept::Owned(text) => Text::of(alloc, text.as_str()),
            Kept::Fixed(text) => Ok(Text::fixed(text)),
        }
    }

    pub fn as_str(&self) -> &str
        ensures { result.now ≡ self.now }
    {
        match &self.kept {
            Kept::Owned(text) => text.as_str(),
            Kept::Fixed(text) => text,
        }
    }

    /// The length in bytes.
    pub fn len(&self) -> usize
        ensures { result ≡ length self.now }
    {
        self.as_str().len()
    }

    pub fn is_empty(&self) -> bool
        ensures { IsTrue result ↔ (length self.now ≡ 0) }
    {
        self.as_str().is_empty()
    }

    /// Whether both have the same bytes.
    pub fn same(&self, other: &Text) -> bool
        ensures { IsTrue result ↔ (self.now ≡ other.now) }
    {
        self.as_str() == other.as_str()
    }
}
