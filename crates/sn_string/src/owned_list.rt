//! An owned list.

ghost use Rattle.std.specs.Prelude.{◌≡◌, ◌↔◌, List, ℕ, [], ◌∷◌, ◌++◌, length, OnOk, OnErr, IsTrue};

use std::alloc::{AllocError, Global};
use std::marker::Model;

/// An owned list. A contract sees its elements.
#[derive(Drop)]
pub struct OwnedList<T> {
    elements: Vec<T>,
}

impl<T> Model for OwnedList<T> {
    ghost Value = { List T };

    ghost view = { λ m. m.elements.items };
}

impl<T: Drop> OwnedList<T> {
    /// The list without elements. Takes no memory.
    pub fn new(alloc: Global) -> OwnedList<T>
        ensures { result ≡ [] }
    {
        OwnedList {
            elements: Vec::new(alloc),
        }
    }

    /// The vector as a list. Takes no memory.
    pub fn of_vec(elements: Vec<T>) -> OwnedList<T>
        ensures { result ≡ elements.items }
    {
        OwnedList { elements }
    }

    /// The list as a vector. Takes no memory.
    pub fn into_vec(self) -> Vec<T>
        ensures { result.items ≡ self }
    {
        let OwnedList { elements } = self;
        elements
    }

    pub fn as_slice(&self) -> &[T]
        ensures { result.now ≡ self.now }
    {
        self.elements.as_slice()
    }

    pub fn len(&self) -> usize
        ensures { result ≡ length self.now }
    {
        self.elements.len()
    }

    pub fn is_empty(&self) -> bool
        ensures { IsTrue result ↔ (length self.now ≡ 0) }
    {
        self.elements.is_empty()
    }

    /// Adds an element at the end. On an error the list stays as it was.
    pub fn push(&mut self, element: T) -> Result<(), AllocError>
        ensures ok { OnOk result (self.new ≡ self.old ++ element ∷ []) }
        ensures err { OnErr result (self.new ≡ self.old) }
    {
        self.elements.push(element)?;
        Ok(())
    }
}
