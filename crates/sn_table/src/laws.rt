//! What holds by the definitions alone. The functions do nothing; their contracts are the laws.
ghost use Rattle.sn_table.specs.Laws.{EachIsWholeOrNothing, HasOneStore};

/// A file stands for one list of batches at most.
pub fn one_store()
    ensures { HasOneStore }
{}

/// After any list of commits, each of them done or with a crash in it and a load after that, the file stands
/// for a list of batches that has every done one in order, and of each crashed one the whole or nothing.
pub fn each_is_whole_or_nothing()
    ensures { EachIsWholeOrNothing }
{}
