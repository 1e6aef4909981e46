//! What no script reports, worked out by hand: an item of several labels, a renaming, and lines that end by want of memory, by a number
//! that is used up, or by an answer that lies.

use crate::written::{moves_of, numbered};
use sn_device::Place;
use sn_report::*;
use sn_status::ClientRefusal;
use sn_string::{OwnedList, Text};
use std::alloc::{AllocError, Global};
use std::test::Fail;

// The second item is labelled first, and has the third label too.
fn labels(alloc: Global) -> Result<Labels, Fail> {
    let mut labels = Labels::new(alloc);
    labels.add(numbered(2))?;
    labels.add(numbered(1))?;
    labels.add(numbered(2))?;
    Ok(labels)
}

fn has_items(labels: &Labels) -> bool {
    labels.item(0).is_none()
        && labels.item(1) == Some(numbered(2))
        && labels.item(2) == Some(numbered(1))
        && labels.item(3) == Some(numbered(2))
        && labels.item(4).is_none()
}

fn has_labels(labels: &Labels) -> bool {
    labels.label(&numbered(2)) == 1
        && labels.label(&numbered(1)) == 2
        && labels.label(&numbered(7)) == 4
}

#[test]
fn labels_an_item_twice(rt: HostRuntime) -> Result<(), Fail> {
    let labels = labels(rt.alloc())?;
    assert!(rt; has_items(&labels) && has_labels(&labels));
    let items = labels.items(rt.alloc())?;
    assert!(rt; items.as_slice() == [numbered(2), numbered(1)].as_slice());
    Ok(())
}

// The first item is put twice and renamed to, so that the second has the third label.
fn moves_said(number: u64) -> &'static str {
    match number {
        1 | 2 => "edit A 1 Note - {}",
        3 => "edit A 2 Note - {}",
        4 => "rename A 2 1",
        5 => "edit A 3 Note - {}",
        _ => "",
    }
}

const REPORT: &str = "1 edit A #1 {}
1 = ok
2 edit A #1 {}
2 = ok
3 edit A #3 {}
3 = ok
4 rename A #3 #1
4 = link
5 edit A #5 {}
5 = ok
6 = answer 503
7 = refused client.8 RoundsUsed
8 = refused client.9 NoFreshUuid 00000000-0000-0000-0000-000000000009
9 = refused client.14 Cost 10000001
10 = refused client.15 NumbersUsed 18446744073709551615
11 = refused journal.3 TooLarge 1073741825
12 = refused client.7 BadAnswer head
13 = refused client.7 BadAnswer member cursor_token
14 = refused client.7 BadAnswer retrieved 7
15 = refused client.3 Closed 6e
";

fn refusal(number: u64) -> Option<ClientRefusal> {
    match number {
        7 => Some(ClientRefusal::RoundsUsed),
        8 => Some(ClientRefusal::NoFreshUuid { drawn: numbered(9) }),
        9 => Some(ClientRefusal::Cost { cost: 10000001 }),
        10 => Some(ClientRefusal::NumbersUsed { next: u64::MAX }),
        11 => Some(ClientRefusal::TooLarge { size: 1073741825 }),
        _ => None,
    }
}

// A nonce that none of the report's sets has.
fn closed(alloc: Global) -> Result<ClientRefusal, AllocError> {
    let nonce = Text::of(alloc, "6e")?;
    Ok(ClientRefusal::Closed { nonce })
}

fn bad_answer(alloc: Global, number: u64) -> Result<Last, AllocError> {
    match number {
        12 => Ok(Last::BadAnswer(Place::Head)),
        13 => {
            let name = Text::of(alloc, "cursor_token")?;
            Ok(Last::BadAnswer(Place::Member { name }))
        }
        _ => Ok(Last::BadAnswer(Place::Retrieved { index: 7 })),
    }
}

// What ends the line of this number.
fn end_of(alloc: Global, number: u64) -> Result<Last, Fail> {
    match number {
        4 => Ok(Last::Link),
        6 => Ok(Last::Answer { status: 503 }),
        7..=11 => Ok(Last::Refused(refusal(number).ok_or("refusal")?)),
        12..=14 => Ok(bad_answer(alloc, number)?),
        15 => Ok(Last::Refused(closed(alloc)?)),
        _ => Ok(Last::Done),
    }
}

fn event(alloc: Global, number: u64) -> Result<Event, Fail> {
    let moves = moves_of(alloc, moves_said(number))?;
    let last = end_of(alloc, number)?;
    Ok(Event {
        number,
        puts: matches!(number, 1 | 2 | 3 | 5),
        moves,
        shown: OwnedList::new(alloc),
        last,
        server_mark: 0,
        device_mark: None,
    })
}

fn report(alloc: Global) -> Result<Report, Fail> {
    let mut events = OwnedList::new(alloc);
    for number in 1..16 {
        events.push(event(alloc, number)?)?;
    }
    Ok(Report { events })
}

fn text(alloc: Global) -> Result<Text, Fail> {
    let report = report(alloc)?;
    Ok(report_text(alloc, &report)?)
}

#[test]
fn writes_what_no_script_reports(rt: HostRuntime) -> Result<(), Fail> {
    assert!(rt; text(rt.alloc())?.as_str() == REPORT);
    Ok(())
}
