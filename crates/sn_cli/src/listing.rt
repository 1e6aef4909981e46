// The list of a device's items.
ghost use Rattle.std.specs.Prelude.{◌≡◌, ◌++◌, IfOk, OnOk, string_bytes};
ghost use Rattle.sn_cli.specs.Listed.{list_text, listed_line, mark_text};

use crate::showing::json_text;
use sn_device::{Listed, Mark};
use sn_string::uuid_text;
use std::alloc::{AllocError, Global};

/// The list, a line each.
pub fn list_text(alloc: Global, rows: &[Listed]) -> Result<String, AllocError>
    ensures { IfOk result (λ text. string_bytes text ≡ list_text rows.now) }
{
    let mut text = String::new(alloc);
    'rows: for row in rows {
        let line = listed_line(alloc, row)?;
        text.push_str(line.as_str())?;
    }
    Ok(text)
}

fn listed_line(alloc: Global, row: &Listed) -> Result<String, AllocError>
    ensures { IfOk result (λ line. string_bytes line ≡ listed_line row.now) }
{
    let uuid = uuid_text(alloc, row.uuid)?;
    let mark = mark_text(row.mark);
    let length = row.length;
    let kind = json_text(alloc, row.kind.as_str())?;
    format!(in alloc; "{uuid} {mark} {length} {kind}\n")
}

fn mark_text(mark: Mark) -> &'static str
    ensures { result.now ≡ mark_text mark }
{
    match mark {
        Mark::Deleted => "deleted",
        Mark::Draft => "draft",
        Mark::Closed => "closed",
        Mark::Clean => "clean",
    }
}
