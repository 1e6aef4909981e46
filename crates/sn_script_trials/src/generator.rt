//! Scripts that were made by hand, by the rule's own words.

use sn_generator::generate;
use sn_script::{Fate, Line, Ordinal, Script};
use sn_string::{OwnedList, Text};
use std::alloc::{AllocError, Global};
use std::test::Fail;

// The number, the count, and the lines of the events.
const SCRIPTS: [(u32, u32, &str); 7] = [
    (1, 3, "sync A\nput A {\"n\":2}\nput B {\"n\":3}\n"),
    (
        1,
        8,
        "sync A\nput A {\"n\":2}\nput B {\"n\":3}\nedit B #2 {\"n\":4}\nput A {\"n\":5}\nput A {\"n\":6}\nsync B drop-reply\nput A {\"n\":8}\n",
    ),
    (0, 1, "put B {\"n\":1}\n"),
    (65536, 1, "put A {\"n\":1}\n"),
    (
        6,
        4,
        "put B {\"n\":1}\nsync B\nsync A drop-reply\nput A {\"n\":4}\n",
    ),
    (
        19,
        6,
        "put B {\"n\":1}\nput A {\"n\":2}\nput B {\"n\":3}\nedit B #3 {\"n\":4}\nput A {\"n\":5}\nedit A #4 {\"n\":6}\n",
    ),
    (65536, 0, ""),
];

const OPENING: &str = "cost 1\nclock 1\nregister A gen p\nsignin B gen p\n";

const CLOSING: &str = "sync A\nsync B\nsync A\n";

fn joined(alloc: Global, pieces: &[&str]) -> Result<String, AllocError> {
    let mut all = String::new(alloc);
    for piece in pieces {
        all.push_str(piece)?;
    }
    Ok(all)
}

fn number_text(alloc: Global, command: &str, number: u64) -> Result<String, AllocError> {
    let number = number.to_string(alloc)?;
    joined(alloc, &[command, " ", number.as_str()])
}

// Words, each behind a blank.
fn words_text(alloc: Global, words: &[&Text]) -> Result<String, AllocError> {
    let mut all = String::new(alloc);
    for word in words {
        all.push(' ')?;
        all.push_str(word.as_str())?;
    }
    Ok(all)
}

fn fates_text(fates: &[Fate]) -> &'static str {
    match fates {
        [] => "",
        [Fate::DropReply(Ordinal::Nth(1))] => " drop-reply",
        _ => " other",
    }
}

// A command with these words, and what is lost behind them.
fn command_text(
    alloc: Global,
    command: &str,
    words: &[&Text],
    fates: &OwnedList<Fate>,
) -> Result<String, AllocError> {
    let mut text = command.to_string(alloc)?;
    text.push_str(words_text(alloc, words)?.as_str())?;
    text.push_str(fates_text(fates.as_slice()))?;
    Ok(text)
}

fn label_text(alloc: Global, label: Ordinal) -> Result<String, AllocError> {
    match label {
        Ordinal::Nth(number) => format!(in alloc; " #{number} "),
        Ordinal::Beyond => " beyond ".to_string(alloc),
    }
}

fn edit_text(
    alloc: Global,
    device: &Text,
    label: Ordinal,
    text: &Text,
) -> Result<String, AllocError> {
    let label = label_text(alloc, label)?;
    joined(
        alloc,
        &["edit ", device.as_str(), label.as_str(), text.as_str()],
    )
}

fn item_text(alloc: Global, line: &Line) -> Result<String, AllocError> {
    match line {
        Line::Put {
            device,
            fates,
            text,
        } => command_text(alloc, "put", &[device, text], fates),
        Line::Edit {
            device,
            label,
            text,
            ..
        } => edit_text(alloc, device, *label, text),
        _ => "other".to_string(alloc),
    }
}

// A line of a device and its account, or else of an item.
fn device_text(alloc: Global, line: &Line) -> Result<String, AllocError> {
    match line {
        Line::Register {
            device,
            identifier,
            password,
            fates,
        } => command_text(alloc, "register", &[device, identifier, password], fates),
        Line::SignIn {
            device,
            identifier,
            password,
            fates,
        } => command_text(alloc, "signin", &[device, identifier, password], fates),
        Line::Sync { device, fates } => command_text(alloc, "sync", &[device], fates),
        _ => item_text(alloc, line),
    }
}

fn line_text(alloc: Global, line: &Line) -> Result<String, AllocError> {
    match line {
        Line::Cost(cost) => number_text(alloc, "cost", u64::from(*cost)),
        Line::Clock(moment) => number_text(alloc, "clock", *moment),
        _ => device_text(alloc, line),
    }
}

fn script_text(alloc: Global, script: &Script) -> Result<String, AllocError> {
    let mut all = String::new(alloc);
    for line in script.lines.as_slice() {
        all.push_str(line_text(alloc, line)?.as_str())?;
        all.push('\n')?;
    }
    Ok(all)
}

// What is generated, as a script's text.
fn made(alloc: Global, number: u32, count: u32) -> Result<String, Fail> {
    let script = generate(alloc, number, count)?;
    Ok(script_text(alloc, &script)?)
}

fn is_made(alloc: Global, number: u32, count: u32, events: &str) -> Result<bool, Fail> {
    let want = joined(alloc, &[OPENING, events, CLOSING])?;
    Ok(made(alloc, number, count)?.as_str() == want.as_str())
}

#[test]
fn makes_scripts(rt: HostRuntime) -> Result<(), Fail> {
    for (number, count, events) in SCRIPTS {
        assert!(rt;
            is_made(rt.alloc(), number, count, events)?,
            "{number} {count}"
        );
    }
    Ok(())
}
