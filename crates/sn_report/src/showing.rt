//! The lines that show a state, each from what is printed in it.

ghost use Rattle.std.specs.Prelude.{◌≡◌, IfOk, string_bytes};
ghost use Rattle.sn_report.specs.Showing.{body_text, closed_text, held_text, item_text, last_set_text, latest_text, none_text, sets_text};

use crate::labels::Labels;
use crate::moves::content_text;
use sn_laws::{Body, Content};
use sn_string::Text;
use std::alloc::{AllocError, Global};
use std::fmt::Write;
use uuid::Uuid;

fn body_text(alloc: Global, labels: &Labels, body: &Body) -> Result<String, AllocError>
    ensures { IfOk result (λ text. string_bytes text ≡ body_text labels.now body.now) }
{
    match body {
        Body::Under(text, number) => {
            let content = labels.relabelled(alloc, text.as_str())?;
            format!(in alloc; "set {number} {content}")
        }
        Body::Gone => "deleted".to_string(alloc),
    }
}

/// The line of an item, from its last version. The stamp is microseconds since 1970.
pub fn item_line(
    alloc: Global,
    labels: &Labels,
    uuid: &Uuid,
    stamp: u64,
    body: &Body,
) -> Result<Text, AllocError>
    ensures { IfOk result (λ text. text ≡ item_text labels.now uuid.now stamp body.now) }
{
    let label = labels.label(uuid);
    let body = body_text(alloc, labels, body)?;
    let line = format!(in alloc; "item #{label} @{stamp} {body}")?;
    Ok(Text::of_string(line))
}

/// The line of an account, from its identifier and the number of its last set.
pub fn account_line(alloc: Global, identifier: &str, number: u64) -> Result<Text, AllocError>
    ensures { IfOk result (λ text. text ≡ last_set_text identifier.now number) }
{
    let line = format!(in alloc; "account {identifier} set {number}")?;
    Ok(Text::of_string(line))
}

fn held_text(alloc: Global, held: &[u64]) -> Result<String, AllocError>
    ensures { IfOk result (λ text. string_bytes text ≡ held_text held.now) }
{
    let mut text = String::new(alloc);
    'held: for number in held {
        write!(text, " {number}")?;
    }
    Ok(text)
}

/// The line of a device that has an account, from the account's identifier and the numbers of the
/// sets that the device holds, rising.
pub fn device_line(
    alloc: Global,
    name: &str,
    account: &str,
    held: &[u64],
) -> Result<Text, AllocError>
    ensures { IfOk result (λ text. text ≡ sets_text name.now account.now held.now) }
{
    let sets = held_text(alloc, held)?;
    let line = format!(in alloc; "device {name} {account} sets{sets}")?;
    Ok(Text::of_string(line))
}

/// The line of a device that has no account.
pub fn no_account_line(alloc: Global, name: &str) -> Result<Text, AllocError>
    ensures { IfOk result (λ text. text ≡ none_text name.now) }
{
    let line = format!(in alloc; "device {name} none")?;
    Ok(Text::of_string(line))
}

/// The line of a draft.
pub fn draft_line(
    alloc: Global,
    labels: &Labels,
    device: &str,
    uuid: &Uuid,
    latest: &Content,
) -> Result<Text, AllocError>
    ensures { IfOk result (λ text. text ≡ latest_text labels.now device.now uuid.now latest.now) }
{
    let label = labels.label(uuid);
    let content = content_text(alloc, labels, latest)?;
    let line = format!(in alloc; "draft {device} #{label} {content}")?;
    Ok(Text::of_string(line))
}

/// The line of an item that is closed to a device, with the number of the set under which it is
/// sealed.
pub fn closed_line(
    alloc: Global,
    labels: &Labels,
    device: &str,
    uuid: &Uuid,
    number: u64,
) -> Result<Text, AllocError>
    ensures { IfOk result (λ text. text ≡ closed_text labels.now device.now uuid.now number) }
{
    let label = labels.label(uuid);
    let line = format!(in alloc; "closed {device} #{label} set {number}")?;
    Ok(Text::of_string(line))
}
