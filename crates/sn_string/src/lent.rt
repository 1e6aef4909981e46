//! Parameters whose texts are lent, so that they take no memory.

ghost use Rattle.sn_string.specs.Bounds.{IsIdentifier, IsCost, IsNonce};

use crate::params::Params;
use crate::text::Text;
use std::alloc::{AllocError, Global};

/// Parameters whose texts are lent.
#[derive(Drop)]
pub(crate) struct LentParams<'a> {
    pub(crate) identifier: &'a str,
    pub(crate) pw_cost: u32,
    pub(crate) pw_nonce: &'a str,
    pub(crate) ghost identifier_fits: { IsIdentifier identifier.now },
    pub(crate) ghost cost_fits: { IsCost pw_cost },
    pub(crate) ghost nonce_fits: { IsNonce pw_nonce.now },
}

impl LentParams<'_> {
    ghost use Rattle.std.specs.Prelude.{◌≡◌, ◌↔◌, IfOk, IsTrue};
    ghost use Rattle.sn_string.specs.Lent.{lent_params};

    /// The same parameters with texts of their own.
    pub(crate) fn owned(&self, alloc: Global) -> Result<Params, AllocError>
        ensures { IfOk result (λ params. params ≡ lent_params self.now) }
    {
        let identifier = Text::of(alloc, self.identifier)?;
        let pw_nonce = Text::of(alloc, self.pw_nonce)?;
        Ok(Params {
            identifier,
            pw_cost: self.pw_cost,
            pw_nonce,
        })
    }

    /// Whether they are these.
    pub(crate) fn are(&self, params: &Params) -> bool
        ensures { IsTrue result ↔ (lent_params self.now ≡ params.now) }
    {
        self.pw_cost == params.pw_cost
            && self.identifier == params.identifier.as_str()
            && self.pw_nonce == params.pw_nonce.as_str()
    }
}
