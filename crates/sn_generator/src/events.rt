//! The lines of events.

ghost use Rattle.std.specs.Prelude.{◌≡◌, ◌<◌, ◌^◌, [], ◌∷◌, IfOk, OnOk};
ghost use Rattle.sn_generator.specs.Generated.{content_of, name_of, side_of};
ghost use Rattle.sn_generator.specs.Puts.{act_of, line_of, puts_after};
ghost use Rattle.sn_script.specs.declared.script.Fate.TheVariants as fate;
ghost use Rattle.sn_script.specs.declared.script.Line.TheVariants as line;
ghost use Rattle.sn_script.specs.declared.script.Ordinal.TheVariants as ordinal;

use crate::puts::{Act, Puts, is_of_a};
use sn_script::{Fate, Line, Ordinal};
use sn_string::{OwnedList, Text};
use std::alloc::{AllocError, Global};

// The device whose event draws this number.
fn device(drawn: u32) -> Text
    ensures { result ≡ name_of (side_of drawn) }
{
    if is_of_a(drawn) {
        Text::fixed("A")
    } else {
        Text::fixed("B")
    }
}

// What an event writes.
fn content(alloc: Global, event: u32) -> Result<Text, AllocError>
    ensures { IfOk result (λ text. text ≡ content_of event) }
{
    let text = format!(in alloc; "{{\"n\":{event}}}")?;
    Ok(Text::of_string(text))
}

fn losing_fates(alloc: Global) -> Result<OwnedList<Fate>, AllocError>
    ensures { IfOk result (λ fates. fates ≡ fate.DropReply (ordinal.Nth 1) ∷ []) }
{
    let mut fates = OwnedList::new(alloc);
    fates.push(Fate::DropReply(Ordinal::Nth(1)))?;
    Ok(fates)
}

fn line(alloc: Global, act: Act, drawn: u32, event: u32) -> Result<Line, AllocError>
    ensures { IfOk result (λ l. l ≡ line_of act drawn event) }
{
    match act {
        Act::Put => Ok(Line::Put {
            device: device(drawn),
            fates: OwnedList::new(alloc),
            text: content(alloc, event)?,
        }),
        Act::Edit(label) => Ok(Line::Edit {
            device: device(drawn),
            label: Ordinal::Nth(label),
            fates: OwnedList::new(alloc),
            text: content(alloc, event)?,
        }),
        Act::Sync => Ok(sync_line(device(drawn), OwnedList::new(alloc))),
        Act::LosingSync => Ok(sync_line(device(drawn), losing_fates(alloc)?)),
    }
}

/// A sync of a device.
pub(crate) fn sync_line(device: Text, fates: OwnedList<Fate>) -> Line
    ensures { result ≡ line.Sync device fates }
{
    Line::Sync { device, fates }
}

/// The line of the event that has the number `event` and draws `drawn`. A put is noted.
pub(crate) fn event_line(
    alloc: Global,
    puts: &mut Puts,
    drawn: u32,
    event: u32,
) -> Result<Line, AllocError>
    requires { puts.old.made < 2 ^ 63 }
    ensures line { IfOk result (λ l. l ≡ line_of (act_of puts.old drawn) drawn event) }
    ensures puts { OnOk result (puts.new ≡ puts_after (act_of puts.old drawn) puts.old drawn) }
{
    let act = puts.act(drawn);
    let line = line(alloc, act, drawn, event)?;
    puts.note(act, drawn);
    Ok(line)
}
