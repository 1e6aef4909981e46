//! The lines of moves.

ghost use Rattle.std.specs.Prelude.{◌≡◌, ◌++◌, IfOk, OnErr, OnOk, codes, string_bytes};
ghost use Rattle.std.specs.Fmt.{decimal};
ghost use Rattle.sn_report.specs.Labels.{label_text, labels_after};
ghost use Rattle.sn_report.specs.Text.{accept_text, content_text, draft_text, edit_text, move_text, moved_text, under_text};

use crate::labels::Labels;
use sn_laws::{Content, Move};
use sn_string::Text;
use std::alloc::{AllocError, Global};
use std::fmt::Write;
use uuid::Uuid;

/// A draft's content, or its deletion.
pub(crate) fn content_text(
    alloc: Global,
    labels: &Labels,
    content: &Content,
) -> Result<String, AllocError>
    ensures { IfOk result (λ text. string_bytes text ≡ content_text labels.now content.now) }
{
    match content {
        Content::Plain(text) => labels.relabelled(alloc, text.as_str()),
        Content::Deleted => "deleted".to_string(alloc),
    }
}

// A version's set, or its deletion.
fn under_text(alloc: Global, under: Option<u64>) -> Result<String, AllocError>
    ensures { IfOk result (λ text. string_bytes text ≡ under_text under) }
{
    match under {
        Some(number) => format!(in alloc; "set {number}"),
        None => "deleted".to_string(alloc),
    }
}

fn edit_text(
    alloc: Global,
    labels: &Labels,
    device: &str,
    uuid: &Uuid,
    latest: &Content,
) -> Result<String, AllocError>
    ensures { IfOk result (λ text. string_bytes text ≡ edit_text labels.now device.now uuid.now latest.now) }
{
    let label = labels.label(uuid);
    let content = content_text(alloc, labels, latest)?;
    format!(in alloc; "edit {device} #{label} {content}")
}

fn accept_text(
    alloc: Global,
    labels: &Labels,
    uuid: &Uuid,
    stamp: u64,
    under: Option<u64>,
) -> Result<String, AllocError>
    ensures { IfOk result (λ text. string_bytes text ≡ accept_text labels.now uuid.now stamp under) }
{
    let label = labels.label(uuid);
    let body = under_text(alloc, under)?;
    format!(in alloc; "accept #{label} @{stamp} {body}")
}

// What a device does with a draft.
fn draft_text(
    alloc: Global,
    word: &str,
    labels: &Labels,
    device: &Text,
    uuid: &Uuid,
) -> Result<String, AllocError>
    ensures { IfOk result (λ text. string_bytes text ≡ draft_text word.now labels.now device.now uuid.now) }
{
    let device = device.as_str();
    let label = labels.label(uuid);
    format!(in alloc; "{word} {device} #{label}")
}

// What a device does with a draft that goes on under another uuid.
fn moved_text(
    alloc: Global,
    word: &str,
    labels: &Labels,
    device: &Text,
    uuid: &Uuid,
    other: &Uuid,
) -> Result<String, AllocError>
    ensures { IfOk result (λ text. string_bytes text ≡ moved_text word.now labels.now device.now uuid.now other.now) }
{
    let draft = draft_text(alloc, word, labels, device, uuid)?;
    let label = labels.label(other);
    format!(in alloc; "{draft} #{label}")
}

fn settle_posted_text(
    alloc: Global,
    labels: &Labels,
    device: &Text,
    uuid: &Uuid,
    stamp: u64,
) -> Result<String, AllocError>
    ensures { IfOk result (λ text. string_bytes text
        ≡ draft_text (codes "settle") labels.now device.now uuid.now ++ (codes " @" ++ decimal stamp)) }
{
    let draft = draft_text(alloc, "settle", labels, device, uuid)?;
    format!(in alloc; "{draft} @{stamp}")
}

// What a device, or an account, has to do with a set.
fn set_text(alloc: Global, word: &str, name: &Text, number: u64) -> Result<String, AllocError>
    ensures { IfOk result (λ text. string_bytes text ≡ word.now ++ (codes " " ++ (name.now ++ (codes " set " ++ decimal number)))) }
{
    let name = name.as_str();
    format!(in alloc; "{word} {name} set {number}")
}

fn rewrap_text(
    alloc: Global,
    labels: &Labels,
    uuid: &Uuid,
    stamp: u64,
    under: u64,
) -> Result<String, AllocError>
    ensures { IfOk result (λ text. string_bytes text
        ≡ codes "rewrap " ++ (label_text labels.now uuid.now ++ (codes " @" ++ (decimal stamp ++ (codes " set " ++ decimal under))))) }
{
    let label = labels.label(uuid);
    format!(in alloc; "rewrap #{label} @{stamp} set {under}")
}

/// A move, with the labels that there are after it.
pub(crate) fn move_text(alloc: Global, labels: &Labels, made: &Move) -> Result<String, AllocError>
    ensures { IfOk result (λ text. string_bytes text ≡ move_text labels.now made.now) }
{
    match made {
        Move::Register { identifier, .. } => {
            let identifier = identifier.as_str();
            format!(in alloc; "register {identifier} set 1")
        }
        Move::Join {
            device,
            identifier,
            number,
        } => {
            let device = device.as_str();
            let identifier = identifier.as_str();
            format!(in alloc; "join {device} {identifier} set {number}")
        }
        Move::Edit {
            device,
            uuid,
            latest,
            ..
        } => edit_text(alloc, labels, device.as_str(), uuid, latest),
        Move::Drop { device, uuid } => draft_text(alloc, "drop", labels, device, uuid),
        Move::Post { device, uuid } => draft_text(alloc, "post", labels, device, uuid),
        Move::Unpost { device, uuid } => draft_text(alloc, "unpost", labels, device, uuid),
        Move::Accept {
            uuid,
            stamp,
            under,
            ..
        } => accept_text(alloc, labels, uuid, *stamp, *under),
        Move::Rewrap { uuid, stamp, under } => rewrap_text(alloc, labels, uuid, *stamp, *under),
        Move::Settle { device, uuid } => draft_text(alloc, "settle", labels, device, uuid),
        Move::SettlePosted {
            device,
            uuid,
            stamp,
        } => settle_posted_text(alloc, labels, device, uuid, *stamp),
        Move::Fork {
            device,
            uuid,
            other,
        } => moved_text(alloc, "fork", labels, device, uuid, other),
        Move::Rename {
            device,
            uuid,
            other,
        } => moved_text(alloc, "rename", labels, device, uuid, other),
        Move::GiveWay { device, uuid } => draft_text(alloc, "giveway", labels, device, uuid),
        Move::Change {
            identifier,
            number,
            ..
        } => set_text(alloc, "change", identifier, *number),
        Move::Retire { device, number } => set_text(alloc, "retire", device, *number),
    }
}

/// Makes the label that the move makes, if it makes one: of an item that is forked or renamed to, or
/// that is edited by a line that puts a new item.
pub fn make_label(labels: &mut Labels, puts: bool, made: &Move) -> Result<(), AllocError>
    ensures made { OnOk result (labels.new ≡ labels_after puts labels.old made.now) }
    ensures refused { OnErr result (labels.new ≡ labels.old) }
{
    match made {
        Move::Edit { uuid, .. } if puts => labels.add(*uuid),
        Move::Fork { other, .. } | Move::Rename { other, .. } => labels.add(*other),
        Move::Register { .. }
        | Move::Join { .. }
        | Move::Edit { .. }
        | Move::Drop { .. }
        | Move::Post { .. }
        | Move::Unpost { .. }
        | Move::Accept { .. }
        | Move::Rewrap { .. }
        | Move::Settle { .. }
        | Move::SettlePosted { .. }
        | Move::GiveWay { .. }
        | Move::Change { .. }
        | Move::Retire { .. } => Ok(()),
    }
}
