//! What holds of every state that legal moves lead to, by the definitions alone. The functions do
//! nothing; their contracts are the laws.

ghost use Rattle.sn_laws.specs.Reached.{CarriesSets, CarriesTwo, DeletionsStay, DevicesHold, DraftsOwned, IdentifiersDiffer, NoncesDiffer, NumbersHeld, OneOwner, PostedOnce, RewrappedOnce};

/// An identifier is that of one account at most.
pub fn identifiers_differ()
    ensures { IdentifiersDiffer }
{}

/// A nonce is that of one set of its account at most.
pub fn nonces_differ()
    ensures { NoncesDiffer }
{}

/// An item is in one account.
pub fn one_owner()
    ensures { OneOwner }
{}

/// A live version carries a set of its account.
pub fn carries_sets()
    ensures { CarriesSets }
{}

/// A live last version carries the last set or the one before.
pub fn carries_two()
    ensures { CarriesTwo }
{}

/// A device holds one or two sets of its account.
pub fn devices_hold()
    ensures { DevicesHold }
{}

/// What was sent was sent under no set above the greatest that the device holds.
pub fn numbers_held()
    ensures { NumbersHeld }
{}

/// A draft of which a deletion was sent is deleted.
pub fn deletions_stay()
    ensures { DeletionsStay }
{}

/// A device with drafts has an account.
pub fn drafts_owned()
    ensures { DraftsOwned }
{}

/// What is sent becomes one version at most.
pub fn posted_once()
    ensures { PostedOnce }
{}

/// An item is sealed again once at most under each set.
pub fn rewrapped_once()
    ensures { RewrappedOnce }
{}
