// The lines, one function a command. Each takes the words behind the command's.
ghost use Rattle.std.specs.Prelude.{◌≡◌, ◌≤◌, ◌∷◌, ◌↔◌, List, ℕ, codes, map, IfNone, IfOk, IfSome, IsTrue, MatchOption};
ghost use Rattle.std.specs.Fmt.{decimal};
ghost use Rattle.sn_script.specs.Grammar.{IsEntry, IsLine, IsReading, IsShort};
ghost use Rattle.sn_script.specs.declared.script.Fate.{Fate};
ghost use Rattle.sn_script.specs.declared.script.Line.{Line};

use crate::fates::losses;
use crate::script::{Fate, Line};
use crate::texts::{TextBehind, text_behind};
use crate::words::{is_name, is_short, label_of, number, ordinal_of};
use sn_string::{OwnedList, Text, hash_bytes};
use std::alloc::{AllocError, Global};

pub fn seed_line(words: &[&str]) -> Option<Line>
    ensures { IsReading (codes "seed" ∷ map (λ w. w.now) words.now) result }
{
    match words {
        [digits] => match hash_bytes(digits) {
            Some(bytes) => Some(Line::Seed(bytes)),
            None => None,
        },
        _ => None,
    }
}

// A cost of 1 to 1,000,000.
fn cost_of(digits: &str) -> Option<u32>
    ensures some { IfSome result (λ n. (digits.now ≡ decimal n) × (1 ≤ n) × (n ≤ 1000000)) }
    ensures none { IfNone result ((n : ℕ) → 1 ≤ n → n ≤ 1000000 → ¬ (digits.now ≡ decimal n)) }
{
    match number(digits) {
        Some(cost) => {
            if 1 <= cost && cost <= 1_000_000 {
                Some(cost as u32)
            } else {
                None
            }
        }
        None => None,
    }
}

pub fn cost_line(words: &[&str]) -> Option<Line>
    ensures { IsReading (codes "cost" ∷ map (λ w. w.now) words.now) result }
{
    match words {
        [digits] => match cost_of(digits) {
            Some(cost) => Some(Line::Cost(cost)),
            None => None,
        },
        _ => None,
    }
}

pub fn clock_line(words: &[&str]) -> Option<Line>
    ensures { IsReading (codes "clock" ∷ map (λ w. w.now) words.now) result }
{
    match words {
        [digits] => match number(digits) {
            Some(moment) => Some(Line::Clock(moment)),
            None => None,
        },
        _ => None,
    }
}

// What an account begins with, and what a device signs in with.
#[derive(Drop)]
struct Entry {
    device: Text,
    identifier: Text,
    password: Text,
    fates: OwnedList<Fate>,
}

fn are_short(identifier: &str, password: &str) -> bool
    ensures { IsTrue result ↔ (IsShort identifier.now × IsShort password.now) }
{
    is_short(identifier) && is_short(password)
}

fn make_entry(
    alloc: Global,
    device: &str,
    identifier: &str,
    password: &str,
    fates: OwnedList<Fate>,
) -> Result<Entry, AllocError>
    ensures { IfOk result (λ e. e
        ≡ record { device = device.now; identifier = identifier.now; password = password.now; fates = fates }) }
{
    Ok(Entry {
        device: Text::of(alloc, device)?,
        identifier: Text::of(alloc, identifier)?,
        password: Text::of(alloc, password)?,
        fates,
    })
}

fn entry_of(alloc: Global, words: &[&str]) -> Result<Option<Entry>, AllocError>
    ensures { IfOk result (λ found. MatchOption found
        ((device identifier password : List ℕ) (fates : List Fate) → ¬ (IsEntry (map (λ w. w.now) words.now) device identifier password fates))
        (λ e. IsEntry (map (λ w. w.now) words.now) e.device e.identifier e.password e.fates)) }
{
    let [device, identifier, password, rest @ ..] = words else {
        return Ok(None);
    };
    if !is_name(device) || !are_short(identifier, password) {
        return Ok(None);
    }
    match losses(alloc, rest)? {
        Some(fates) => Ok(Some(make_entry(alloc, device, identifier, password, fates)?)),
        None => Ok(None),
    }
}

pub fn register_line(alloc: Global, words: &[&str]) -> Result<Option<Line>, AllocError>
    ensures { IfOk result (IsReading (codes "register" ∷ map (λ w. w.now) words.now)) }
{
    match entry_of(alloc, words)? {
        Some(entry) => Ok(Some(Line::Register {
            device: entry.device,
            identifier: entry.identifier,
            password: entry.password,
            fates: entry.fates,
        })),
        None => Ok(None),
    }
}

pub fn sign_in_line(alloc: Global, words: &[&str]) -> Result<Option<Line>, AllocError>
    ensures { IfOk result (IsReading (codes "signin" ∷ map (λ w. w.now) words.now)) }
{
    match entry_of(alloc, words)? {
        Some(entry) => Ok(Some(Line::SignIn {
            device: entry.device,
            identifier: entry.identifier,
            password: entry.password,
            fates: entry.fates,
        })),
        None => Ok(None),
    }
}

pub fn put_line(alloc: Global, words: &[&str]) -> Result<Option<Line>, AllocError>
    ensures { IfOk result (IsReading (codes "put" ∷ map (λ w. w.now) words.now)) }
{
    match words {
        [device, rest @ ..] => {
            if !is_name(device) {
                return Ok(None);
            }
            match text_behind(alloc, rest)? {
                Some(TextBehind { fates, text }) => Ok(Some(Line::Put {
                    device: Text::of(alloc, device)?,
                    fates,
                    text,
                })),
                None => Ok(None),
            }
        }
        _ => Ok(None),
    }
}

pub fn edit_line(alloc: Global, words: &[&str]) -> Result<Option<Line>, AllocError>
    ensures { IfOk result (IsReading (codes "edit" ∷ map (λ w. w.now) words.now)) }
{
    match words {
        [device, number, rest @ ..] => {
            if !is_name(device) {
                return Ok(None);
            }
            let Some(label) = label_of(number) else {
                return Ok(None);
            };
            match text_behind(alloc, rest)? {
                Some(TextBehind { fates, text }) => Ok(Some(Line::Edit {
                    device: Text::of(alloc, device)?,
                    label,
                    fates,
                    text,
                })),
                None => Ok(None),
            }
        }
        _ => Ok(None),
    }
}

pub fn delete_line(alloc: Global, words: &[&str]) -> Result<Option<Line>, AllocError>
    ensures { IfOk result (IsReading (codes "del" ∷ map (λ w. w.now) words.now)) }
{
    match words {
        [device, number, rest @ ..] => {
            if !is_name(device) {
                return Ok(None);
            }
            let Some(label) = label_of(number) else {
                return Ok(None);
            };
            match losses(alloc, rest)? {
                Some(fates) => Ok(Some(Line::Delete {
                    device: Text::of(alloc, device)?,
                    label,
                    fates,
                })),
                None => Ok(None),
            }
        }
        _ => Ok(None),
    }
}

pub fn sync_line(alloc: Global, words: &[&str]) -> Result<Option<Line>, AllocError>
    ensures { IfOk result (IsReading (codes "sync" ∷ map (λ w. w.now) words.now)) }
{
    match words {
        [device, rest @ ..] => {
            if !is_name(device) {
                return Ok(None);
            }
            match losses(alloc, rest)? {
                Some(fates) => Ok(Some(Line::Sync {
                    device: Text::of(alloc, device)?,
                    fates,
                })),
                None => Ok(None),
            }
        }
        _ => Ok(None),
    }
}

pub fn passwd_line(alloc: Global, words: &[&str]) -> Result<Option<Line>, AllocError>
    ensures { IfOk result (IsReading (codes "passwd" ∷ map (λ w. w.now) words.now)) }
{
    match words {
        [device, password, rest @ ..] => {
            if !is_name(device) || !is_short(password) {
                return Ok(None);
            }
            match losses(alloc, rest)? {
                Some(fates) => Ok(Some(Line::Passwd {
                    device: Text::of(alloc, device)?,
                    password: Text::of(alloc, password)?,
                    fates,
                })),
                None => Ok(None),
            }
        }
        _ => Ok(None),
    }
}

pub fn late_line(alloc: Global, words: &[&str]) -> Result<Option<Line>, AllocError>
    ensures { IfOk result (IsReading (codes "late" ∷ map (λ w. w.now) words.now)) }
{
    match words {
        [device, number] => {
            if !is_name(device) {
                return Ok(None);
            }
            match ordinal_of(number) {
                Some(request) => Ok(Some(Line::Late {
                    device: Text::of(alloc, device)?,
                    request,
                })),
                None => Ok(None),
            }
        }
        _ => Ok(None),
    }
}

pub fn show_line(words: &[&str]) -> Option<Line>
    ensures { IsReading (codes "show" ∷ map (λ w. w.now) words.now) result }
{
    match words {
        [] => Some(Line::Show),
        _ => None,
    }
}
