//! What holds of every list of changes, by the definitions alone. The functions do nothing; their
//! contracts are the laws.

ghost use Rattle.sn_rows.specs.Laws.{KeysCompare, KeysAreInOrder, LastCounts, SparedIsNone, LastOrSpared, Follows, BatchFollows, SparedStays, PutGives, PutHere, PutElsewhere, RemovalGives, RemovedHere, RemovedElsewhere, IsReadBack, HasOneSpelling, HasOneReading, HasOneRefusal};

/// Two keys are the same where they are equal.
pub fn keys_compare()
    ensures { KeysCompare }
{}

/// Keys are compared in their order.
pub fn keys_in_order()
    ensures { KeysAreInOrder }
{}

/// The row of a key is what the last change of it leaves.
pub fn last_counts()
    ensures { LastCounts }
{}

/// Without a change of it there is no row of a key.
pub fn spared_is_none()
    ensures { SparedIsNone }
{}

/// Of each key there is a last change, or no change at all.
pub fn last_or_spared()
    ensures { LastOrSpared }
{}

/// Changes that follow others change the rows that those left.
pub fn follows()
    ensures { Follows }
{}

/// A batch that follows others changes the rows that those left.
pub fn batch_follows()
    ensures { BatchFollows }
{}

/// Changes of other rows leave a row as it was.
pub fn spared_stays()
    ensures { SparedStays }
{}

/// A put leaves the rows with its own row.
pub fn put_gives()
    ensures { PutGives }
{}

/// The row of its key is what is put.
pub fn put_here()
    ensures { PutHere }
{}

/// A put leaves each other row as it was.
pub fn put_elsewhere()
    ensures { PutElsewhere }
{}

/// A removal leaves the rows without its row.
pub fn removal_gives()
    ensures { RemovalGives }
{}

/// There is no row of its key any more.
pub fn removed_here()
    ensures { RemovedHere }
{}

/// A removal leaves each other row as it was.
pub fn removed_elsewhere()
    ensures { RemovedElsewhere }
{}

/// What is written of changes is read back as those changes, unless memory is wanting.
pub fn read_back()
    ensures { IsReadBack }
{}

/// What is read as changes is, byte for byte, what is written of them.
pub fn one_spelling()
    ensures { HasOneSpelling }
{}

/// Bytes spell one list of changes at most.
pub fn one_reading()
    ensures { HasOneReading }
{}

/// Bytes are refused in one way at most, unless memory is wanting.
pub fn one_refusal()
    ensures { HasOneRefusal }
{}
