//! What holds of every message, by the definitions alone. The functions do nothing; their contracts are
//! the laws.

ghost use Rattle.sn_sync.specs.Laws.{HasOneSpelling, HasOneStamp, HasOneToken};

/// A text is the spelling of one stamp at most.
pub fn one_stamp()
    ensures { HasOneStamp }
{}

/// A stamp has one spelling at most.
pub fn one_spelling()
    ensures { HasOneSpelling }
{}

/// A text is the token of one stamp at most.
pub fn one_token()
    ensures { HasOneToken }
{}
