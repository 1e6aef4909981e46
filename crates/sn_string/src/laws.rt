//! What holds of every text, by the definitions alone. The functions do nothing; their contracts are
//! the laws.

ghost use Rattle.sn_string.specs.Laws.{HasOneReading, HasOneRefusal, IsReadBack};

/// A text says one thing at most.
pub fn one_reading()
    ensures { HasOneReading }
{}

/// A 003 string is read as what it says, unless memory is wanting.
pub fn read_back()
    ensures { IsReadBack }
{}

/// A text has one refusal at most, want of memory aside.
pub fn one_refusal()
    ensures { HasOneRefusal }
{}
