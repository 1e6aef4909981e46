//! The key set of a registration, once more.

ghost use Rattle.std.specs.Prelude.{◌≡◌, ◌≤◌, IfOk};
ghost use Rattle.hex.specs.Hex.{encode_lower};
ghost use Rattle.sn_course.specs.Settings.{words_of};
ghost use Rattle.sn_replay.specs.Lines.{DrawsSet};
ghost use Rattle.sn_string.specs.Bounds.{IsIdentifier};

use crate::settings::{Moment, line_words};
use sn_keys::derive;
use sn_string::{KeySet, Params, Text, TryClone, hex_text};
use std::alloc::{AllocError, Global};

/// The set that a registration of this line begins. Its device derives the same one from the line's words.
pub(crate) fn new_set(
    alloc: Global,
    at: &Moment,
    identifier: &Text,
    password: &Text,
) -> Result<KeySet, AllocError>
    requires identifier { IsIdentifier identifier.now }
    requires cost { 1 ≤ at.now.settings.cost }
    ensures { IfOk result (DrawsSet (words_of at.now.settings at.now.number) identifier.now password.now at.now.settings.cost) }
{
    let mut words = line_words(at);
    let nonce = words.nonce();
    let params = new_params(alloc, &nonce, identifier, at.settings.cost)?;
    derive(alloc, password.as_str(), &params)
}

// Parameters with a nonce.
fn new_params(
    alloc: Global,
    nonce: &[u8; 32],
    identifier: &Text,
    cost: u32,
) -> Result<Params, AllocError>
    requires identifier { IsIdentifier identifier.now }
    requires cost { 1 ≤ cost }
    ensures { IfOk result (λ params. (params.identifier ≡ identifier.now) × (params.pw_cost ≡ cost) × (params.pw_nonce ≡ encode_lower nonce.now)) }
{
    let nonce = Text::of_string(hex_text(alloc, nonce)?);
    let identifier = identifier.try_clone(alloc)?;
    let Some(params) = Params::new(identifier, cost, nonce) else {
        unreachable!();
    };
    Ok(params)
}
