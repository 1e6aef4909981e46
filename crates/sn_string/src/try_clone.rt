//! Copies that are known to be equal.

ghost use Rattle.std.specs.Prelude.{◌≡◌, IfOk};

use crate::bytes::Bytes;
use crate::owned_list::OwnedList;
use crate::text::Text;
use std::alloc::{AllocError, Global};
use uuid::Uuid;

/// A value of which a copy can be made that is known to be equal.
pub trait TryClone {
    /// The same value once more.
    fn try_clone(&self, alloc: Global) -> Result<Self, AllocError>
        ensures { IfOk result (λ t. t ≡ self.now) };
}

impl TryClone for u8 {
    fn try_clone(&self, _alloc: Global) -> Result<u8, AllocError> {
        Ok(*self)
    }
}

impl TryClone for u32 {
    fn try_clone(&self, _alloc: Global) -> Result<u32, AllocError> {
        Ok(*self)
    }
}

impl TryClone for u64 {
    fn try_clone(&self, _alloc: Global) -> Result<u64, AllocError> {
        Ok(*self)
    }
}

impl TryClone for bool {
    fn try_clone(&self, _alloc: Global) -> Result<bool, AllocError> {
        Ok(*self)
    }
}

impl TryClone for [u8; 32] {
    fn try_clone(&self, _alloc: Global) -> Result<[u8; 32], AllocError> {
        Ok(*self)
    }
}

impl TryClone for Uuid {
    fn try_clone(&self, _alloc: Global) -> Result<Uuid, AllocError> {
        Ok(*self)
    }
}

impl TryClone for Text {
    fn try_clone(&self, alloc: Global) -> Result<Text, AllocError> {
        self.copied(alloc)
    }
}

impl TryClone for Bytes {
    fn try_clone(&self, alloc: Global) -> Result<Bytes, AllocError> {
        Bytes::of(alloc, self.as_slice())
    }
}

impl<T: TryClone + Drop> TryClone for OwnedList<T> {
    fn try_clone(&self, alloc: Global) -> Result<OwnedList<T>, AllocError> {
        let mut elements = OwnedList::new(alloc);
        for element in self.as_slice() {
            elements.push(element.try_clone(alloc)?)?;
        }
        Ok(elements)
    }
}

impl<T: TryClone + Drop> TryClone for Option<T> {
    fn try_clone(&self, alloc: Global) -> Result<Option<T>, AllocError> {
        match self {
            Some(value) => Ok(Some(value.try_clone(alloc)?)),
            None => Ok(None),
        }
    }
}
