//! The run over a script.

ghost use Rattle.std.specs.Prelude.{◌≡◌, ◌≤◌, ◌+◌, ◌++◌, ◌∷◌, [], ℕ, List, All, IfErr, IfOk, IsErrOf, OnOk, length};
ghost use Rattle.sn_course.specs.Headline.{CarriesHeadline, shelf_slots};
ghost use Rattle.sn_course.specs.declared.settings.Settings.{Settings};
ghost use Rattle.sn_disk.specs.MemShelf.{shelf_slot};
ghost use Rattle.sn_disk.specs.Shelf.{unknown};
ghost use Rattle.sn_laws.specs.Each.{One};
ghost use Rattle.sn_replay.specs.Lines.{IsBounded, IsReplayRefusal};
ghost use Rattle.sn_replay.specs.Playing.{AreSlotsOf, HasPlayedAll, IsPlayed, IsRefusalBehind, ReplayingOr};
ghost use Rattle.sn_replay.specs.declared.error.ReplayError.TheVariants as refusal;
ghost use Rattle.sn_script.specs.declared.script.Line.{Line};
ghost use Rattle.sn_script.specs.declared.script.Script.{Script};

use crate::beginning::begin;
use crate::error::ReplayError;
use crate::lines::line_told;
use crate::replaying::{LineTold, Replaying};
use crate::settings::{Moment, after_line, first_settings, reports};
use sn_course::{
    Settings, carried_of_moves, moves_more, recounts_go, recounts_grow, recounts_more,
    reporting_more,
};
use sn_disk::MemShelf;
use sn_report::{Event, Report};
use sn_script::{Line, Script};
use sn_string::OwnedList;
use std::alloc::{AllocError, Global};
use std::mem;

/// Carries out a script at both ends, line by line, and reports what each line brought about. The disks of both are put on the
/// shelf: the server's under `server`, and each device's under `device-` and its name. What it kept beside these to tell the
/// moves by is left to the end of the process, which gives all memory back at once.
pub fn replay(alloc: Global, script: &Script, shelf: &mut MemShelf) -> Result<Report, ReplayError>
    requires bounded { All IsBounded script.now.lines }
    requires fresh { (name : List ℕ) → shelf_slot shelf.old name ≡ unknown }
    ensures carries { IfOk result (CarriesHeadline script.now (shelf_slots shelf.new)) }
    ensures refused { IfErr result (IsReplayRefusal script.now) }
    ensures untouched { (number : ℕ) → IsErrOf result (refusal.NotAllowed number) → shelf.new ≡ shelf.old }
{
    carried_of_moves();
    let played = play(alloc, script)?;
    let State {
        replaying,
        events,
        ..
    } = played;
    put_away(replaying, shelf)?;
    Ok(Report { events })
}

// Puts the disks of both ends on the shelf, where there are any. What was seen is left as it is: to give back each of its pieces
// takes a thirtieth of a long run.
fn put_away(replaying: Option<Replaying>, shelf: &mut MemShelf) -> Result<(), AllocError>
    requires fresh { (name : List ℕ) → shelf_slot shelf.old name ≡ unknown }
    ensures { OnOk result (AreSlotsOf replaying (shelf_slots shelf.new)) }
{
    match replaying {
        Some(Replaying { ends, seen }) => {
            mem::forget(seen);
            ends.put_away(shelf)
        }
        None => Ok(()),
    }
}

/// Where a replay stands between two lines; before the first line that reports it has no ends.
#[derive(Drop)]
pub(crate) struct State {
    pub(crate) settings: Settings,
    pub(crate) replaying: Option<Replaying>,
    pub(crate) events: OwnedList<Event>,
}

// Carries out all lines.
fn play(alloc: Global, script: &Script) -> Result<State, ReplayError>
    requires bounded { All IsBounded script.now.lines }
    ensures played { IfOk result (HasPlayedAll script.now) }
    ensures refused { IfErr result (IsReplayRefusal script.now) }
{
    let mut state = State {
        settings: first_settings(),
        replaying: None,
        events: OwnedList::new(alloc),
    };
    'lines: for (index, line) in script.lines.as_slice().iter().enumerate() {
        state = step(alloc, state, index as u64 + 1, line)?;
    }
    Ok(state)
}

// Carries out one line more.
fn step(alloc: Global, state: State, number: u64, line: &Line) -> Result<State, ReplayError>
    requires bounded { IsBounded line.now }
    requires cost { 1 ≤ state.settings.cost }
    ensures played { (script : Script) (first : Settings) (lines : List Line) → number ≡ 1 + length lines → One (λ l. l ≡ line.now) script.lines
        → IsPlayed script first lines state → IfOk result (IsPlayed script first (lines ++ line.now ∷ [])) }
    ensures refused { (script : Script) (first : Settings) (lines : List Line) → number ≡ 1 + length lines
        → IsPlayed script first lines state → IfErr result (IsRefusalBehind script first lines line.now) }
{
    recounts_grow();
    recounts_more();
    recounts_go();
    reporting_more();
    moves_more();
    let State {
        settings,
        replaying,
        mut events,
    } = state;
    if !reports(line) {
        let settings = after_line(settings, line);
        return Ok(State {
            settings,
            replaying,
            events,
        });
    }
    let at = Moment { number, settings };
    let replaying = replaying_or(alloc, replaying, &at)?;
    let LineTold { replaying, event } = line_told(alloc, replaying, &at, line)?;
    events.push(event)?;
    Ok(State {
        settings,
        replaying: Some(replaying),
        events,
    })
}

// The replay that goes on; before the first line that reports, what it begins with.
fn replaying_or(
    alloc: Global,
    replaying: Option<Replaying>,
    at: &Moment,
) -> Result<Replaying, AllocError>
    ensures { IfOk result (ReplayingOr replaying at.now) }
{
    match replaying {
        Some(replaying) => Ok(replaying),
        None => begin(alloc, at),
    }
}
