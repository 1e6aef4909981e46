//! Auth parameters, and the keys that they give with a password.

ghost use Rattle.std.specs.Prelude.{◌≡◌, ◌↔◌, IsSome, IfSome, IsTrue, IfOk};
ghost use Rattle.sn_string.specs.Bounds.{IsIdentifier, IsCost, IsNonce};

use crate::text::Text;
use crate::try_clone::TryClone;
use std::alloc::{AllocError, Global};

/// Auth parameters: the identifier of an account, and the cost and the nonce of its password.
#[derive(Debug, Drop)]
pub struct Params {
    pub identifier: Text,
    pub pw_cost: u32,
    pub pw_nonce: Text,
    pub ghost identifier_fits: { IsIdentifier identifier },
    pub ghost cost_fits: { IsCost pw_cost },
    pub ghost nonce_fits: { IsNonce pw_nonce },
}

impl Params {
    /// The parameters, where each part is within its bounds.
    pub fn new(identifier: Text, pw_cost: u32, pw_nonce: Text) -> Option<Params>
        ensures within { IsSome result
            ↔ (IsIdentifier identifier × IsCost pw_cost × IsNonce pw_nonce) }
        ensures parts { IfSome result (λ p. (p.identifier ≡ identifier)
            × (p.pw_cost ≡ pw_cost) × (p.pw_nonce ≡ pw_nonce)) }
    {
        if !are_within_bounds(identifier.as_str(), pw_cost, pw_nonce.as_str()) {
            return None;
        }
        Some(Params {
            identifier,
            pw_cost,
            pw_nonce,
        })
    }

    /// Whether the three parts are equal.
    pub fn same(&self, other: &Params) -> bool
        ensures { IsTrue result ↔ (self.now ≡ other.now) }
    {
        self.pw_cost == other.pw_cost
            && self.identifier.same(&other.identifier)
            && self.pw_nonce.same(&other.pw_nonce)
    }
}

// Whether an identifier, a cost and a nonce are within their bounds.
pub(crate) fn are_within_bounds(identifier: &str, pw_cost: u32, pw_nonce: &str) -> bool
    ensures { IsTrue result
        ↔ (IsIdentifier identifier.now × IsCost pw_cost × IsNonce pw_nonce.now) }
{
    if identifier.is_empty() || identifier.len() > 254 {
        return false;
    }
    if pw_nonce.is_empty() || pw_nonce.len() > 256 {
        return false;
    }
    pw_cost > 0
}

impl TryClone for Params {
    fn try_clone(&self, alloc: Global) -> Result<Params, AllocError> {
        let identifier = self.identifier.try_clone(alloc)?;
        let pw_nonce = self.pw_nonce.try_clone(alloc)?;
        Ok(Params {
            identifier,
            pw_cost: self.pw_cost,
            pw_nonce,
        })
    }
}

/// The keys that a password and parameters give: the server's password, the master key and the
/// authentication key.
#[derive(Drop)]
pub struct KeySet {
    pub params: Params,
    pub pw: [u8; 32],
    pub mk: [u8; 32],
    pub ak: [u8; 32],
}

impl KeySet {
    /// Whether parameters and keys are equal.
    pub fn same(&self, other: &KeySet) -> bool
        ensures { IsTrue result ↔ (self.now ≡ other.now) }
    {
        self.params.same(&other.params)
            && self.pw.as_slice() == other.pw.as_slice()
            && self.mk.as_slice() == other.mk.as_slice()
            && self.ak.as_slice() == other.ak.as_slice()
    }
}

impl TryClone for KeySet {
    fn try_clone(&self, alloc: Global) -> Result<KeySet, AllocError> {
        let params = self.params.try_clone(alloc)?;
        Ok(KeySet {
            params,
            pw: self.pw,
            mk: self.mk,
            ak: self.ak,
        })
    }
}
