//! Reports whose summaries were worked out by hand.

use crate::written::{moves_of, number, pieces_of};
use sn_laws::{Move, first_illegal};
use sn_report::{Event, Last, Report};
use sn_string::OwnedList;
use sn_summary::{Summary, summary_of};
use std::alloc::{AllocError, Global};
use std::test::Fail;
use tables::REPORTS;

mod tables;

fn event(alloc: Global, number: u64, moves: OwnedList<Move>) -> Event {
    Event {
        number,
        puts: false,
        moves,
        shown: OwnedList::new(alloc),
        last: Last::Done,
        server_mark: 0,
        device_mark: None,
    }
}

// Two events, of which the first has the moves.
fn reported(alloc: Global, moves: OwnedList<Move>) -> Result<Report, AllocError> {
    let mut events = OwnedList::new(alloc);
    events.push(event(alloc, 3, moves))?;
    events.push(event(alloc, 4, OwnedList::new(alloc)))?;
    Ok(Report { events })
}

fn summarized(alloc: Global, moves: OwnedList<Move>) -> Result<Summary, Fail> {
    if first_illegal(alloc, moves.as_slice())?.is_some() {
        return Err("illegal".into());
    }
    let report = reported(alloc, moves)?;
    Ok(summary_of(alloc, &report)?)
}

// The items, versions, forks and drafts of a row.
fn counts(words: &[&str]) -> Result<Summary, Fail> {
    Ok(Summary {
        events: 2,
        items: number(words, 0)?,
        versions: number(words, 1)?,
        forks: number(words, 2)?,
        drafts: number(words, 3)?,
    })
}

fn is_summarized(alloc: Global, moves: &str, row: &str) -> Result<bool, Fail> {
    let summary = summarized(alloc, moves_of(alloc, moves)?)?;
    let words = pieces_of(alloc, row, ' ')?;
    Ok(summary == counts(&words)?)
}

fn is_right(alloc: Global, line: &str) -> Result<bool, Fail> {
    let (moves, row) = line.split_once('|').ok_or("counts")?;
    is_summarized(alloc, moves, row)
}

#[test]
fn summarizes(rt: HostRuntime) -> Result<(), Fail> {
    for line in REPORTS.lines() {
        if !line.is_empty() {
            assert!(rt; is_right(rt.alloc(), line)?, "at {line}");
        }
    }
    Ok(())
}
