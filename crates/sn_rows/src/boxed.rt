//! A value in a place of its own.

ghost use Rattle.std.specs.Prelude.{◌≡◌, IfOk};

use sn_string::TryClone;
use std::alloc::{AllocError, Global};
use std::marker::Model;

/// A value in a place of its own, so that what holds it has the size of a pointer. A contract sees the value.
#[derive(Drop)]
pub struct Boxed<T> {
    kept: Box<T>,
}

impl<T> Model for Boxed<T> {
    ghost Value = { T };

    ghost view = { λ b. b.kept.value };
}

impl<T: Drop> Boxed<T> {
    /// Puts the value there.
    pub fn of(alloc: Global, value: T) -> Result<Boxed<T>, AllocError>
        ensures { IfOk result (λ b. b ≡ value) }
    {
        let kept = Box::new(alloc, value)?;
        Ok(Boxed { kept })
    }

    /// The value.
    pub fn get(&self) -> &T
        ensures { result.now ≡ self.now }
    {
        &self.kept
    }
}

impl<T: TryClone + Drop> TryClone for Boxed<T> {
    fn try_clone(&self, alloc: Global) -> Result<Boxed<T>, AllocError> {
        let value = self.get().try_clone(alloc)?;
        Boxed::of(alloc, value)
    }
}
