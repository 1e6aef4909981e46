//! The event of each line that asks a device for a call.

ghost use Rattle.std.specs.Prelude.{◌≡◌, ◌≤◌, IfErr, IfOk};
ghost use Rattle.sn_course.specs.Stages.{Stage};
ghost use Rattle.sn_course.specs.Headline.{IsPasswordOf, PasswordsApart};
ghost use Rattle.sn_laws.specs.Lookups.{Bytes};
ghost use Rattle.sn_replay.specs.Lines.{IsRefusalAt, IsRegistering, reported_at, setting_at};
ghost use Rattle.sn_replay.specs.Playing.{IsAt, Tells};
ghost use Rattle.sn_script.specs.declared.script.Line.TheVariants as line;
ghost use Rattle.sn_script.specs.declared.script.Script.{Script};
ghost use Rattle.sn_string.specs.Bounds.{IsIdentifier};
ghost use Rattle.sn_world.specs.Holds.{TokensDiffer};

use crate::error::ReplayError;
use crate::labelled::labelled_item;
use crate::losses::losses_of;
use crate::new_set::new_set;
use crate::replaying::{LineTold, Replaying};
use crate::settings::{Moment, line_words};
use crate::told::heard;
use sn_events::Setting;
use sn_passwd::{every_sync_ends, passwds_end};
use sn_readable::runs_readable;
use sn_script::{Fate, Ordinal};
use sn_string::{Text, TryClone};
use sn_telling::Calling;
use std::alloc::{AllocError, Global};

/// The type of each item that a script puts.
const KIND: &str = "Note";

/// A line that begins an account.
pub(crate) fn register_line(
    alloc: Global,
    replaying: Replaying,
    at: &Moment,
    device: &Text,
    identifier: &Text,
    password: &Text,
    fates: &[Fate],
) -> Result<LineTold, AllocError>
    requires identifier { IsIdentifier identifier.now }
    requires cost { 1 ≤ at.now.settings.cost }
    ensures { (script : Script) (secret : Bytes) (c : Stage) → TokensDiffer secret → IsPasswordOf script password.now → IsAt script secret replaying c
        → IfOk result (Tells script secret replaying c (reported_at at.now (line.Register device.now identifier.now password.now fates.now))) }
{
    runs_readable();
    let Replaying { ends, seen } = replaying;
    let calling = registering(alloc, at, identifier, password)?;
    let mut words = line_words(at);
    let outcome = ends.register(
        setting_at(at, fates),
        device.as_str(),
        &mut words,
        identifier.as_str(),
        password.as_str(),
        at.settings.cost,
    );
    heard(alloc, seen, outcome, at.number, device, calling)
}

/// A line that signs in to an account.
pub(crate) fn sign_in_line(
    alloc: Global,
    replaying: Replaying,
    at: &Moment,
    device: &Text,
    identifier: &Text,
    password: &Text,
    fates: &[Fate],
) -> Result<LineTold, AllocError>
    requires identifier { IsIdentifier identifier.now }
    ensures { (script : Script) (secret : Bytes) (c : Stage) → TokensDiffer secret → PasswordsApart script c.moves → IsPasswordOf script password.now
        → IsAt script secret replaying c
        → IfOk result (Tells script secret replaying c (reported_at at.now (line.SignIn device.now identifier.now password.now fates.now))) }
{
    runs_readable();
    let Replaying { ends, seen } = replaying;
    let calling = Calling::SignIn {
        identifier: identifier.try_clone(alloc)?,
    };
    let mut words = line_words(at);
    let outcome = ends.sign_in(
        setting_at(at, fates),
        device.as_str(),
        &mut words,
        identifier.as_str(),
        password.as_str(),
    );
    heard(alloc, seen, outcome, at.number, device, calling)
}

/// A line that puts a new item.
pub(crate) fn put_line(
    alloc: Global,
    replaying: Replaying,
    at: &Moment,
    device: &Text,
    fates: &[Fate],
    text: &Text,
) -> Result<LineTold, AllocError>
    ensures { (script : Script) (secret : Bytes) (c : Stage) → TokensDiffer secret → IsAt script secret replaying c
        → IfOk result (Tells script secret replaying c (reported_at at.now (line.Put device.now fates.now text.now))) }
{
    let Replaying { ends, seen } = replaying;
    let calling = Calling::Put {
        kind: Text::fixed(KIND),
        text: text.try_clone(alloc)?,
    };
    let mut words = line_words(at);
    let outcome = ends.put(
        setting_at(at, fates),
        device.as_str(),
        &mut words,
        KIND,
        text.as_str(),
    );
    heard(alloc, seen, outcome, at.number, device, calling)
}

/// A line that gives an item a new content.
pub(crate) fn edit_line(
    alloc: Global,
    replaying: Replaying,
    at: &Moment,
    device: &Text,
    label: Ordinal,
    fates: &[Fate],
    text: &Text,
) -> Result<LineTold, ReplayError>
    ensures told { (script : Script) (secret : Bytes) (c : Stage) → TokensDiffer secret → IsAt script secret replaying c
        → IfOk result (Tells script secret replaying c (reported_at at.now (line.Edit device.now label fates.now text.now))) }
    ensures refused { (script : Script) (secret : Bytes) (c : Stage) → IsAt script secret replaying c
        → IfErr result (IsRefusalAt at.now.number c (line.Edit device.now label fates.now text.now)) }
{
    let Replaying { ends, seen } = replaying;
    let Some(uuid) = labelled_item(&seen.labels, label) else {
        return Err(ReplayError::NotAllowed { number: at.number });
    };
    let calling = Calling::Edit {
        text: text.try_clone(alloc)?,
    };
    let mut words = line_words(at);
    let outcome = ends.edit(
        setting_at(at, fates),
        device.as_str(),
        &mut words,
        uuid,
        text.as_str(),
    );
    let told = heard(alloc, seen, outcome, at.number, device, calling)?;
    Ok(told)
}

/// A line that deletes an item.
pub(crate) fn delete_line(
    alloc: Global,
    replaying: Replaying,
    at: &Moment,
    device: &Text,
    label: Ordinal,
    fates: &[Fate],
) -> Result<LineTold, ReplayError>
    ensures told { (script : Script) (secret : Bytes) (c : Stage) → TokensDiffer secret → IsAt script secret replaying c
        → IfOk result (Tells script secret replaying c (reported_at at.now (line.Delete device.now label fates.now))) }
    ensures refused { (script : Script) (secret : Bytes) (c : Stage) → IsAt script secret replaying c
        → IfErr result (IsRefusalAt at.now.number c (line.Delete device.now label fates.now)) }
{
    let Replaying { ends, seen } = replaying;
    let Some(uuid) = labelled_item(&seen.labels, label) else {
        return Err(ReplayError::NotAllowed { number: at.number });
    };
    let outcome = ends.delete(setting_at(at, fates), device.as_str(), uuid);
    let told = heard(alloc, seen, outcome, at.number, device, Calling::Delete)?;
    Ok(told)
}

/// A line that brings a device and the server together.
pub(crate) fn sync_line(
    alloc: Global,
    replaying: Replaying,
    at: &Moment,
    device: &Text,
    fates: &[Fate],
) -> Result<LineTold, AllocError>
    ensures { (script : Script) (secret : Bytes) (c : Stage) → TokensDiffer secret → PasswordsApart script c.moves → IsAt script secret replaying c
        → IfOk result (Tells script secret replaying c (reported_at at.now (line.Sync device.now fates.now))) }
{
    runs_readable();
    every_sync_ends();
    let Replaying { ends, seen } = replaying;
    let mut words = line_words(at);
    let outcome = ends.sync(setting_at(at, fates), device.as_str(), &mut words);
    heard(alloc, seen, outcome, at.number, device, Calling::Sync)
}

/// A line that gives the account of a device another password.
pub(crate) fn passwd_line(
    alloc: Global,
    replaying: Replaying,
    at: &Moment,
    device: &Text,
    password: &Text,
    fates: &[Fate],
) -> Result<LineTold, AllocError>
    requires cost { 1 ≤ at.now.settings.cost }
    ensures { (script : Script) (secret : Bytes) (c : Stage) → TokensDiffer secret → PasswordsApart script c.moves → IsPasswordOf script password.now
        → IsAt script secret replaying c
        → IfOk result (Tells script secret replaying c (reported_at at.now (line.Passwd device.now password.now fates.now))) }
{
    runs_readable();
    passwds_end();
    let Replaying { ends, seen } = replaying;
    let mut words = line_words(at);
    let outcome = ends.passwd(
        setting_at(at, fates),
        device.as_str(),
        &mut words,
        password.as_str(),
        at.settings.cost,
    );
    heard(alloc, seen, outcome, at.number, device, Calling::Passwd)
}

// A registration, with the set that it would begin.
fn registering(
    alloc: Global,
    at: &Moment,
    identifier: &Text,
    password: &Text,
) -> Result<Calling, AllocError>
    requires identifier { IsIdentifier identifier.now }
    requires cost { 1 ≤ at.now.settings.cost }
    ensures { IfOk result (IsRegistering at.now identifier.now password.now) }
{
    let set = new_set(alloc, at, identifier, password)?;
    Ok(Calling::Register {
        identifier: identifier.try_clone(alloc)?,
        set: Some(set),
    })
}

// What is set for the event of a line.
fn setting_at(at: &Moment, fates: &[Fate]) -> Setting
    ensures { result ≡ setting_at at.now.settings fates.now }
{
    Setting {
        now: at.settings.clock,
        losses: losses_of(fates),
    }
}
