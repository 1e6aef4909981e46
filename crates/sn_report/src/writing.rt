//! Writing a report.

ghost use Rattle.std.specs.Prelude.{◌≡◌, ◌++◌, IfOk, OnOk, string_bytes};
ghost use Rattle.std.specs.List.{flat_map};
ghost use Rattle.sn_report.specs.Labels.{labels_after, labels_of};
ghost use Rattle.sn_report.specs.Sets.{sets_of};
ghost use Rattle.sn_report.specs.Text.{event_text, line_text, move_text, moves_text, report_text};

use crate::ends::last_text;
use crate::labels::Labels;
use crate::moves::{make_label, move_text};
use crate::report::{Event, Report};
use crate::sets::{NumberedSet, add_sets};
use sn_laws::Move;
use sn_string::{OwnedList, Text};
use std::alloc::{AllocError, Global};
use std::fmt::Write;

// A line of the script's line of this number. What an error leaves is a part of the line.
fn push_line(text: &mut String, number: u64, line: &str) -> Result<(), AllocError>
    ensures { OnOk result (string_bytes text.new ≡ string_bytes text.old ++ line_text number line.now) }
{
    write!(text, "{number} {line}\n")
}

fn push_move(
    alloc: Global,
    text: &mut String,
    labels: &mut Labels,
    number: u64,
    puts: bool,
    made: &Move,
) -> Result<(), AllocError>
    ensures labels { OnOk result (labels.new ≡ labels_after puts labels.old made.now) }
    ensures text { OnOk result (string_bytes text.new
        ≡ string_bytes text.old ++ line_text number (move_text (labels_after puts labels.old made.now) made.now)) }
{
    make_label(labels, puts, made)?;
    let line = move_text(alloc, labels, made)?;
    push_line(text, number, line.as_str())
}

fn push_moves(
    alloc: Global,
    text: &mut String,
    labels: &mut Labels,
    number: u64,
    puts: bool,
    moves: &[Move],
) -> Result<(), AllocError>
    ensures labels { OnOk result (labels.new ≡ labels_of puts labels.old moves.now) }
    ensures text { OnOk result (string_bytes text.new ≡ string_bytes text.old ++ moves_text number puts labels.old moves.now) }
{
    'moves: for made in moves {
        push_move(alloc, text, labels, number, puts, made)?;
    }
    Ok(())
}

fn push_shown(text: &mut String, number: u64, shown: &[Text]) -> Result<(), AllocError>
    ensures { OnOk result (string_bytes text.new ≡ string_bytes text.old ++ flat_map (line_text number) shown.now) }
{
    'shown: for line in shown {
        push_line(text, number, line.as_str())?;
    }
    Ok(())
}

fn push_event(
    alloc: Global,
    text: &mut String,
    labels: &mut Labels,
    sets: &mut OwnedList<NumberedSet>,
    event: &Event,
) -> Result<(), AllocError>
    ensures labels { OnOk result (labels.new ≡ labels_of event.now.puts labels.old event.now.moves) }
    ensures sets { OnOk result (sets.new ≡ sets_of sets.old event.now.moves) }
    ensures text { OnOk result (string_bytes text.new ≡ string_bytes text.old ++ event_text labels.old sets.old event.now) }
{
    let moves = event.moves.as_slice();
    push_moves(alloc, text, labels, event.number, event.puts, moves)?;
    push_shown(text, event.number, event.shown.as_slice())?;
    add_sets(alloc, sets, moves)?;
    let last = last_text(alloc, labels, sets.as_slice(), &event.last)?;
    push_line(text, event.number, last.as_str())?;
    Ok(())
}

/// The text of a report: for each event its moves, what it shows, and how it ended, a line each.
pub fn report_text(alloc: Global, report: &Report) -> Result<Text, AllocError>
    ensures { IfOk result (λ text. text ≡ report_text report.now) }
{
    let mut text = String::new(alloc);
    let mut labels = Labels::new(alloc);
    let mut sets = OwnedList::new(alloc);
    let events = report.events.as_slice();
    'events: for event in events {
        push_event(alloc, &mut text, &mut labels, &mut sets, event)?;
    }
    Ok(Text::of_string(text))
}
