//! The last lines of events.

ghost use Rattle.std.specs.Prelude.{◌≡◌, IfOk, string_bytes};
ghost use Rattle.sn_report.specs.Labels.{relabelled};
ghost use Rattle.sn_report.specs.Text.{last_text, refused_text};
ghost use Rattle.sn_status.specs.ClientLines.{client_text};

use crate::labels::Labels;
use crate::report::Last;
use crate::sets::{NumberedSet, nonce_text};
use sn_rekey::{RekeyError, Running};
use sn_status::{ClientRefusal, client_line, place_line};
use std::alloc::{AllocError, Global};
use std::fmt::Write;

// A refusal as it is told elsewhere, with the label in place of each labelled uuid that it keeps.
fn plain_text(alloc: Global, labels: &Labels, refusal: &ClientRefusal) -> Result<String, AllocError>
    ensures { IfOk result (λ text. string_bytes text ≡ relabelled labels.now (client_text refusal.now)) }
{
    let line = client_line(alloc, refusal)?;
    labels.relabelled(alloc, line.as_str())
}

// A refusal, with the label in place of each labelled uuid that it keeps, and the set in place of a nonce.
fn refused_text(
    alloc: Global,
    labels: &Labels,
    sets: &[NumberedSet],
    refusal: &ClientRefusal,
) -> Result<String, AllocError>
    ensures { IfOk result (λ text. string_bytes text ≡ refused_text labels.now sets.now refusal.now) }
{
    match refusal {
        ClientRefusal::Closed { nonce } => {
            let set = nonce_text(alloc, sets, nonce)?;
            format!(in alloc; "client.3 Closed {set}")
        }
        ClientRefusal::Rekey { error } => match error {
            RekeyError::ChangeRunning { by } => match by {
                Running::Older { nonce } => {
                    let set = nonce_text(alloc, sets, nonce)?;
                    format!(in alloc; "rekey.1 ChangeRunning {set}")
                }
                Running::Item { .. } => plain_text(alloc, labels, refusal),
            },
            _ => plain_text(alloc, labels, refusal),
        },
        _ => plain_text(alloc, labels, refusal),
    }
}

/// How an event ended.
pub(crate) fn last_text(
    alloc: Global,
    labels: &Labels,
    sets: &[NumberedSet],
    last: &Last,
) -> Result<String, AllocError>
    ensures { IfOk result (λ text. string_bytes text ≡ last_text labels.now sets.now last.now) }
{
    match last {
        Last::Done => "= ok".to_string(alloc),
        Last::Link => "= link".to_string(alloc),
        Last::Server { status, tag } => {
            let tag = tag.as_str();
            format!(in alloc; "= server {status} {tag}")
        }
        Last::Refused(refusal) => {
            let refusal = refused_text(alloc, labels, sets, refusal)?;
            format!(in alloc; "= refused {refusal}")
        }
        Last::BadAnswer(place) => {
            let place = place_line(alloc, place)?;
            format!(in alloc; "= refused client.7 BadAnswer {place}")
        }
        Last::Answer { status } => format!(in alloc; "= answer {status}"),
    }
}
