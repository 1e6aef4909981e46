//! What follows of serving by its definitions. The function does nothing; its contract is the law.
ghost use Rattle.sn_serve.specs.Laws.{OneList};

use sn_disk::Disk;

/// All connections together are one list of messages, each ruled on the rows that those before it left.
pub fn one_list<D: Disk>()
    ensures { OneList ⟦<D as Disk>⟧ }
{}
