// Copies of states.

ghost use Rattle.std.specs.Prelude.{◌≡◌, ◌∷◌, ◌++◌, [], IfOk, OnOk};

use crate::ideal::{Account, Body, Content, Device, Draft, Ideal, Posted, Version};
use sn_string::{OwnedList, TryClone};
use std::alloc::{AllocError, Global};

impl TryClone for Content {
    fn try_clone(&self, alloc: Global) -> Result<Content, AllocError> {
        match self {
            Content::Plain(text) => Ok(Content::Plain(text.try_clone(alloc)?)),
            Content::Deleted => Ok(Content::Deleted),
        }
    }
}

impl TryClone for Body {
    fn try_clone(&self, alloc: Global) -> Result<Body, AllocError> {
        match self {
            Body::Under(text, set) => Ok(Body::Under(text.try_clone(alloc)?, *set)),
            Body::Gone => Ok(Body::Gone),
        }
    }
}

impl TryClone for Version {
    fn try_clone(&self, alloc: Global) -> Result<Version, AllocError> {
        Ok(Version {
            uuid: self.uuid,
            stamp: self.stamp,
            kind: self.kind.try_clone(alloc)?,
            body: self.body.try_clone(alloc)?,
        })
    }
}

impl TryClone for Account {
    fn try_clone(&self, alloc: Global) -> Result<Account, AllocError> {
        Ok(Account {
            identifier: self.identifier.try_clone(alloc)?,
            sets: self.sets.try_clone(alloc)?,
            versions: self.versions.try_clone(alloc)?,
        })
    }
}

impl TryClone for Posted {
    fn try_clone(&self, alloc: Global) -> Result<Posted, AllocError> {
        Ok(Posted {
            content: self.content.try_clone(alloc)?,
            set: self.set,
        })
    }
}

impl TryClone for Draft {
    fn try_clone(&self, alloc: Global) -> Result<Draft, AllocError> {
        Ok(Draft {
            device: self.device.try_clone(alloc)?,
            uuid: self.uuid,
            kind: self.kind.try_clone(alloc)?,
            base: self.base,
            latest: self.latest.try_clone(alloc)?,
            posted: self.posted.try_clone(alloc)?,
        })
    }
}

impl TryClone for Device {
    fn try_clone(&self, alloc: Global) -> Result<Device, AllocError> {
        Ok(Device {
            name: self.name.try_clone(alloc)?,
            account: self.account.try_clone(alloc)?,
            held: self.held.try_clone(alloc)?,
        })
    }
}

impl TryClone for Ideal {
    fn try_clone(&self, alloc: Global) -> Result<Ideal, AllocError> {
        Ok(Ideal {
            accounts: self.accounts.try_clone(alloc)?,
            drafts: self.drafts.try_clone(alloc)?,
            devices: self.devices.try_clone(alloc)?,
        })
    }
}

/// One more element, the same as this value.
pub fn push_copy<T: TryClone + Drop>(
    alloc: Global,
    values: &mut OwnedList<T>,
    value: &T,
) -> Result<(), AllocError>
    ensures { OnOk result (values.new ≡ values.old ++ value.now ∷ []) }
{
    values.push(value.try_clone(alloc)?)
}

/// A list of the same elements.
pub fn copies<T: TryClone + Drop>(alloc: Global, values: &[T]) -> Result<OwnedList<T>, AllocError>
    ensures { IfOk result (λ copy. copy ≡ values.now) }
{
    let mut copy = OwnedList::new(alloc);
    for value in values {
        push_copy(alloc, &mut copy, value)?;
    }
    Ok(copy)
}
