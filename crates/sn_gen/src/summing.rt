//! The summary of the script that a number makes: the script is made, carried out, and its report summed up.

ghost use Rattle.std.specs.Prelude.{◌≡◌, List, ℕ, IfOk, IsErrOf};
ghost use Rattle.sn_disk.specs.MemShelf.{shelf_slot};
ghost use Rattle.sn_disk.specs.Shelf.{unknown};
ghost use Rattle.sn_gen.specs.Sums.{IsStopped, IsSummed};
ghost use Rattle.sn_replay.specs.declared.error.ReplayError.TheVariants as refused;

use sn_disk::MemShelf;
use sn_generator::generate;
use sn_replay::{ReplayError, replay};
use sn_string::Text;
use sn_summary::{summary_of, summary_text};
use std::alloc::Global;
use std::mem;

/// The summary of the report that the script of this number, with so many events, carries over the disks that it leaves on
/// the shelf in memory. A script with a line that may not come is refused, and leaves the shelf as it was. Script and report are
/// left to the end of the process, which gives all memory back at once.
pub fn generated_summary(
    alloc: Global,
    number: u32,
    count: u32,
    memory_shelf: &mut MemShelf,
) -> Result<Text, ReplayError>
    requires fresh { (name : List ℕ) → shelf_slot memory_shelf.old name ≡ unknown }
    ensures summed { IfOk result (IsSummed memory_shelf.new number count) }
    ensures refused { (line : ℕ) → IsErrOf result (refused.NotAllowed line) → IsStopped number count line }
    ensures untouched { (line : ℕ) → IsErrOf result (refused.NotAllowed line) → memory_shelf.new ≡ memory_shelf.old }
{
    let script = generate(alloc, number, count)?;
    let report = replay(alloc, &script, memory_shelf)?;
    let summary = summary_of(alloc, &report)?;
    let text = summary_text(alloc, &summary)?;
    mem::forget(report);
    mem::forget(script);
    Ok(text)
}
