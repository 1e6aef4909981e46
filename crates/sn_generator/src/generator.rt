//! Making a script.

ghost use Rattle.std.specs.Prelude.{◌≡◌, ◌++◌, List, All, IfOk, OnOk};
ghost use Rattle.sn_generator.specs.Generated.{AreEvents, IsGenerated, closing, next, opening};
ghost use Rattle.sn_generator.specs.Playable.{IsPlayable};
ghost use Rattle.sn_script.specs.declared.script.Line.{Line};

use crate::events::{event_line, sync_line};
use crate::puts::Puts;
use sn_script::{Line, Script};
use sn_string::{OwnedList, Text};
use std::alloc::{AllocError, Global};

// The number that is drawn after this one.
fn next(drawn: u32) -> u32
    ensures { result ≡ next drawn }
{
    ((75 * drawn as u64 + 74) % 65537) as u32
}

// The settings, and an account that both devices have.
fn opening(alloc: Global) -> Result<OwnedList<Line>, AllocError>
    ensures { IfOk result (λ lines. lines ≡ opening) }
{
    let mut lines = OwnedList::new(alloc);
    lines.push(Line::Cost(1))?;
    lines.push(Line::Clock(1))?;
    lines.push(Line::Register {
        device: Text::fixed("A"),
        identifier: Text::fixed("gen"),
        password: Text::fixed("p"),
        fates: OwnedList::new(alloc),
    })?;
    lines.push(Line::SignIn {
        device: Text::fixed("B"),
        identifier: Text::fixed("gen"),
        password: Text::fixed("p"),
        fates: OwnedList::new(alloc),
    })?;
    Ok(lines)
}

// Adds a line for each event.
fn push_events(
    alloc: Global,
    lines: &mut OwnedList<Line>,
    number: u32,
    count: u32,
) -> Result<(), AllocError>
    ensures { OnOk result ((events : List Line) × AreEvents number count events × (lines.new ≡ lines.old ++ events)) }
{
    let mut drawn = number;
    let mut puts = Puts::new();
    'events: for before in 0..count {
        drawn = next(drawn);
        let line = event_line(alloc, &mut puts, drawn, before + 1)?;
        lines.push(line)?;
    }
    Ok(())
}

// Adds the last syncs.
fn push_closing(alloc: Global, lines: &mut OwnedList<Line>) -> Result<(), AllocError>
    ensures { OnOk result (lines.new ≡ lines.old ++ closing) }
{
    lines.push(sync_line(Text::fixed("A"), OwnedList::new(alloc)))?;
    lines.push(sync_line(Text::fixed("B"), OwnedList::new(alloc)))?;
    lines.push(sync_line(Text::fixed("A"), OwnedList::new(alloc)))
}

/// The script of a number, with so many events of two devices between its opening and its closing
/// lines.
pub fn generate(alloc: Global, number: u32, count: u32) -> Result<Script, AllocError>
    ensures lines { IfOk result (IsGenerated number count) }
    ensures playable { IfOk result (λ script. All IsPlayable script.lines) }
{
    let mut lines = opening(alloc)?;
    push_events(alloc, &mut lines, number, count)?;
    push_closing(alloc, &mut lines)?;
    Ok(Script { lines })
}
