// The texts of a device's refusals, and of places in an answer.
ghost use Rattle.std.specs.Prelude.{◌≡◌, IfOk, string_bytes};
ghost use Rattle.sn_status.specs.ClientLines.{client_text, place_text, rekey_text};

use crate::refusal::ClientRefusal;
use sn_device::Place;
use sn_rekey::{RekeyError, Running};
use sn_string::uuid_text;
use std::alloc::{AllocError, Global};

/// The refusal's number, its name and the values that it keeps.
pub fn client_line(alloc: Global, refusal: &ClientRefusal) -> Result<String, AllocError>
    ensures { IfOk result (λ line. string_bytes line ≡ client_text refusal.now) }
{
    match refusal {
        ClientRefusal::NoAccount => format!(in alloc; "client.1 NoAccount"),
        ClientRefusal::NoItem { uuid } => {
            let uuid = uuid_text(alloc, *uuid)?;
            format!(in alloc; "client.2 NoItem {uuid}")
        }
        ClientRefusal::Closed { nonce } => {
            let nonce = nonce.as_str();
            format!(in alloc; "client.3 Closed {nonce}")
        }
        ClientRefusal::TooLong { length } => format!(in alloc; "client.4 TooLong {length}"),
        ClientRefusal::NotObject => format!(in alloc; "client.5 NotObject"),
        ClientRefusal::RoundsUsed => format!(in alloc; "client.8 RoundsUsed"),
        ClientRefusal::NoFreshUuid { drawn } => {
            let drawn = uuid_text(alloc, *drawn)?;
            format!(in alloc; "client.9 NoFreshUuid {drawn}")
        }
        ClientRefusal::WrongPassword => format!(in alloc; "client.11 WrongPassword"),
        ClientRefusal::OtherAccount { identifier } => {
            let identifier = identifier.as_str();
            format!(in alloc; "client.12 OtherAccount {identifier}")
        }
        ClientRefusal::HasAccount { identifier } => {
            let identifier = identifier.as_str();
            format!(in alloc; "client.13 HasAccount {identifier}")
        }
        ClientRefusal::Cost { cost } => format!(in alloc; "client.14 Cost {cost}"),
        ClientRefusal::NumbersUsed { next } => format!(in alloc; "client.15 NumbersUsed {next}"),
        ClientRefusal::Rekey { error } => rekey_line(alloc, error),
        ClientRefusal::TooLarge { size } => format!(in alloc; "journal.3 TooLarge {size}"),
    }
}

fn rekey_line(alloc: Global, error: &RekeyError) -> Result<String, AllocError>
    ensures { IfOk result (λ line. string_bytes line ≡ rekey_text error.now) }
{
    match error {
        RekeyError::ChangeRunning { by } => running_line(alloc, by),
        RekeyError::Unsent { uuid } => {
            let uuid = uuid_text(alloc, *uuid)?;
            format!(in alloc; "rekey.2 Unsent {uuid}")
        }
    }
}

fn running_line(alloc: Global, running: &Running) -> Result<String, AllocError>
    ensures { IfOk result (λ line. string_bytes line ≡ rekey_text (RekeyError.ChangeRunning running.now)) }
{
    match running {
        Running::Older { nonce } => {
            let nonce = nonce.as_str();
            format!(in alloc; "rekey.1 ChangeRunning {nonce}")
        }
        Running::Item { uuid } => {
            let uuid = uuid_text(alloc, *uuid)?;
            format!(in alloc; "rekey.1 ChangeRunning {uuid}")
        }
    }
}

/// The place in words; a name as it stands.
pub fn place_line(alloc: Global, place: &Place) -> Result<String, AllocError>
    ensures { IfOk result (λ line. string_bytes line ≡ place_text place.now) }
{
    match place {
        Place::Head => format!(in alloc; "head"),
        Place::Json => format!(in alloc; "json"),
        Place::Member { name } => {
            let name = name.as_str();
            format!(in alloc; "member {name}")
        }
        Place::Saved { index } => format!(in alloc; "saved {index}"),
        Place::Conflict { index } => format!(in alloc; "conflict {index}"),
        Place::Retrieved { index } => format!(in alloc; "retrieved {index}"),
        Place::Cursor => format!(in alloc; "cursor"),
    }
}
