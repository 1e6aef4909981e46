//! What the disk of an open server stands for.
ghost use Rattle.std.specs.Prelude.{◌≡◌, List};
ghost use Rattle.sn_disk.specs.Disk.{Only};
ghost use Rattle.sn_disk.specs.MemDisk.{disk_told};
ghost use Rattle.sn_disk.specs.Steps.{Leaves};
ghost use Rattle.sn_journal.specs.declared.owner.Owner.TheVariants.{Server as ServerOwner};
ghost use Rattle.sn_server.specs.Stores.{IsOpen, Kept, server_disk};
ghost use Rattle.sn_table.specs.Batches.{IsStore};
ghost use Rattle.sn_tail.specs.Marks.{StoodAt, mark_of};

use sn_disk::MemDisk;
use sn_server::Server;

/// The disk of an open server stands, at its present mark, for the server's batches, and a crash leaves nothing else.
pub fn server_stands(_server: &Server<MemDisk>)
    ensures at { (kept : Kept) → IsOpen _server.now kept →
        StoodAt (server_disk _server.now) (mark_of (server_disk _server.now)) ServerOwner kept.batches }
    ensures one { (kept : Kept) → IsOpen _server.now kept →
        Only (disk_told (server_disk _server.now)).bytes (Leaves (disk_told (server_disk _server.now))) }
    ensures store { (kept : Kept) → IsOpen _server.now kept → IsStore ServerOwner (disk_told (server_disk _server.now)).bytes kept.batches }
{}
