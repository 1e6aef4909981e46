//! The event of each line.

ghost use Rattle.std.specs.Prelude.{◌≡◌, ◌≤◌, IfErr, IfOk, true};
ghost use Rattle.sn_course.specs.Stages.{Stage};
ghost use Rattle.sn_course.specs.Headline.{PasswordsApart};
ghost use Rattle.sn_laws.specs.Each.{One};
ghost use Rattle.sn_laws.specs.Lookups.{Bytes};
ghost use Rattle.sn_replay.specs.Lines.{IsBounded, IsRefusalAt, reported_at, reports};
ghost use Rattle.sn_replay.specs.Playing.{IsAt, Tells};
ghost use Rattle.sn_script.specs.declared.script.Script.{Script};
ghost use Rattle.sn_world.specs.Holds.{TokensDiffer};

use crate::calls::{
    delete_line, edit_line, passwd_line, put_line, register_line, sign_in_line, sync_line,
};
use crate::error::ReplayError;
use crate::late::late_line;
use crate::replaying::{LineTold, Replaying};
use crate::settings::Moment;
use crate::showing::show_line;
use sn_script::Line;
use std::alloc::Global;

/// Carries out a line that reports at both ends, and gives its event.
pub(crate) fn line_told(
    alloc: Global,
    replaying: Replaying,
    at: &Moment,
    line: &Line,
) -> Result<LineTold, ReplayError>
    requires bounded { IsBounded line.now }
    requires cost { 1 ≤ at.now.settings.cost }
    requires reports { reports line.now ≡ true }
    ensures told { (script : Script) (secret : Bytes) (c : Stage) → TokensDiffer secret → PasswordsApart script c.moves → One (λ l. l ≡ line.now) script.lines
        → IsAt script secret replaying c → IfOk result (Tells script secret replaying c (reported_at at.now line.now)) }
    ensures refused { (script : Script) (secret : Bytes) (c : Stage) → IsAt script secret replaying c → IfErr result (IsRefusalAt at.now.number c line.now) }
{
    match line {
        Line::Seed(_) => unreachable!(),
        Line::Cost(_) => unreachable!(),
        Line::Clock(_) => unreachable!(),
        Line::Register {
            device,
            identifier,
            password,
            fates,
        } => {
            let fates = fates.as_slice();
            let told = register_line(alloc, replaying, at, device, identifier, password, fates)?;
            Ok(told)
        }
        Line::SignIn {
            device,
            identifier,
            password,
            fates,
        } => {
            let fates = fates.as_slice();
            let told = sign_in_line(alloc, replaying, at, device, identifier, password, fates)?;
            Ok(told)
        }
        Line::Put {
            device,
            fates,
            text,
        } => {
            let told = put_line(alloc, replaying, at, device, fates.as_slice(), text)?;
            Ok(told)
        }
        Line::Edit {
            device,
            label,
            fates,
            text,
        } => edit_line(alloc, replaying, at, device, *label, fates.as_slice(), text),
        Line::Delete {
            device,
            label,
            fates,
        } => delete_line(alloc, replaying, at, device, *label, fates.as_slice()),
        Line::Sync { device, fates } => {
            let told = sync_line(alloc, replaying, at, device, fates.as_slice())?;
            Ok(told)
        }
        Line::Passwd {
            device,
            password,
            fates,
        } => {
            let told = passwd_line(alloc, replaying, at, device, password, fates.as_slice())?;
            Ok(told)
        }
        Line::Late { device, request } => late_line(alloc, replaying, at, device, *request),
        Line::Show => {
            let told = show_line(alloc, replaying, at)?;
            Ok(told)
        }
    }
}
