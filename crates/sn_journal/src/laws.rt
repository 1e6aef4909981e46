//! What holds of every file, by the definitions alone. The functions do nothing; their contracts are the laws.
ghost use Rattle.sn_journal.specs.Laws.{HasOneFinding, IsSameAfterCrashedLoads};

/// A file stands for one list of batches at most, or is foreign or damaged at one place; no two of these hold.
pub fn one_finding()
    ensures { HasOneFinding }
{}

/// However often loading is cut short by a crash and begun again, the batches stay the same.
pub fn same_after_crashed_loads()
    ensures { IsSameAfterCrashedLoads }
{}
