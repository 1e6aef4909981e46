//! Texts that a table spells, and the answer that it says.

use super::tables::{CIPHERTEXT, HASH, IV, PARAMETERS, PARAMS, PARTS, TEXTS, UUID, VERSION};
use crate::cases::so;
use base64::engine::general_purpose::STANDARD;
use sn_string::{Parts, StringError, read};
use std::alloc::{AllocError, Global};
use std::process::Abort;

// The parts of the text that reads, in front of the params part, as a row names them.
static USUAL: [(&str, &str); 5] = [
    ("version=", VERSION),
    ("hash=", HASH),
    ("uuid=", UUID),
    ("iv=", IV),
    ("ciphertext=", CIPHERTEXT),
];

// What a row has for a part.
fn piece_of<'r>(changes: &'r str, part: &str) -> Option<&'r str> {
    for change in changes.split(';') {
        let piece = change.strip_prefix(part);
        if piece.is_some() {
            return piece;
        }
    }
    None
}

fn push_times(text: &mut String, unit: &str, count: usize) -> Result<(), AllocError> {
    for _ in 0..count {
        text.push_str(unit)?;
    }
    Ok(())
}

// `unit^3` written out.
fn push_run(text: &mut String, run: &str) -> Result<(), AllocError> {
    match run.rsplit_once('^') {
        Some((unit, count)) => push_times(text, unit, count.parse::<usize>().unwrap_or(0)),
        None => Ok(()),
    }
}

// `before*unit^3*after` written out.
fn push_written_out(text: &mut String, piece: &str) -> Result<(), AllocError> {
    for (place, word) in piece.split('*').enumerate() {
        if place % 2 == 0 {
            text.push_str(word)?;
        } else {
            push_run(text, word)?;
        }
    }
    Ok(())
}

fn push_part(text: &mut String, changes: &str, part: &str, usual: &str) -> Result<(), AllocError> {
    match piece_of(changes, part) {
        Some(piece) => push_written_out(text, piece),
        None => text.push_str(usual),
    }
}

fn push_base64(alloc: Global, text: &mut String, json: &str) -> Result<(), AllocError> {
    let mut written = String::new(alloc);
    push_written_out(&mut written, json)?;
    STANDARD.encode_string(written.as_bytes(), text)
}

fn push_params(alloc: Global, text: &mut String, changes: &str) -> Result<(), AllocError> {
    match piece_of(changes, "json=") {
        Some(json) => push_base64(alloc, text, json),
        None => push_part(text, changes, "params=", PARAMS),
    }
}

fn changed(alloc: Global, changes: &str) -> Result<String, AllocError> {
    let mut text = String::new(alloc);
    for (part, usual) in &USUAL {
        push_part(&mut text, changes, part, usual)?;
        text.push_str(":")?;
    }
    push_params(alloc, &mut text, changes)?;
    Ok(text)
}

fn text_of(alloc: Global, changes: &str) -> Result<String, AllocError> {
    match changes.strip_prefix("whole=") {
        Some(whole) => whole.to_string(alloc),
        None => changed(alloc, changes),
    }
}

fn refusal_of(error: &StringError) -> (&'static str, usize) {
    match error {
        StringError::Parts { count } => ("Parts", *count),
        StringError::Version { place } => ("Version", *place),
        StringError::Hash { place } => ("Hash", *place),
        StringError::Uuid { place } => ("Uuid", *place),
        StringError::Iv { place } => ("Iv", *place),
        StringError::Ciphertext { place } => ("Ciphertext", *place),
        StringError::Params { place } => ("Params", *place),
        StringError::Memory => ("Memory", 0),
    }
}

// The name of the answer, and its place or count.
fn told(answer: &Result<Parts<'_>, StringError>) -> (&'static str, usize) {
    match answer {
        Ok(_) => ("Ok", 0),
        Err(error) => refusal_of(error),
    }
}

// `name|place`.
fn is_spelled(told: (&str, usize), expected: &str) -> bool {
    match expected.split_once('|') {
        Some((name, place)) => name == told.0 && place.parse::<usize>() == Ok(told.1),
        None => false,
    }
}

fn is_answered(alloc: Global, changes: &str, expected: &str) -> bool {
    match text_of(alloc, changes) {
        Ok(text) => is_spelled(told(&read(alloc, text.as_str())), expected),
        Err(_) => false,
    }
}

fn holds(alloc: Global, row: &str) -> bool {
    match row.split_once('|') {
        Some((changes, expected)) => is_answered(alloc, changes, expected),
        None => false,
    }
}

// Asserts each row of a table that has so many.
fn each_row(rt: &impl Abort, alloc: Global, table: &str, count: u32) {
    let mut rows = 0u32;
    for row in table.lines() {
        so(rt, row, row.is_empty() || holds(alloc, row));
        rows = rows.saturating_add(u32::from(!row.is_empty()));
    }
    so(rt, "the count of rows", rows == count);
}

#[test]
fn reads_or_refuses(rt: HostRuntime) {
    each_row(&rt, rt.alloc(), TEXTS, 18);
    each_row(&rt, rt.alloc(), PARTS, 72);
    each_row(&rt, rt.alloc(), PARAMETERS, 56);
}
