//! A batch whose moves were worked out by hand, with such as no run of the program says: what another account's uuids make of items.

use sn_laws::Move;
use sn_moves::{Done, foreign_in, moves_of};
use sn_row_map::RowMap;
use sn_rows::{Boxed, Change, Key, LocalItem, Row, RowBody, RowStrings, Value};
use sn_string::{OwnedList, Text};
use sn_sync::{Answer, Body, Conflict, Item};
use std::alloc::{AllocError, Global};
use std::test::Fail;
use uuid::Uuid;

fn named(number: u8) -> Uuid {
    Uuid::from_bytes([number; 16])
}

fn sealed(alloc: Global, word: &str) -> Result<RowBody, Fail> {
    let key = Text::of(alloc, "key")?;
    let content = Text::of(alloc, word)?;
    Ok(RowBody::Sealed(RowStrings::new(content, key).ok_or("strings")?))
}

// None for no word; a deletion; else strings that no set opens.
fn body(alloc: Global, word: &str) -> Result<Option<RowBody>, Fail> {
    match word {
        "" => Ok(None),
        "gone" => Ok(Some(RowBody::Deleted)),
        _ => Ok(Some(sealed(alloc, word)?)),
    }
}

fn stood_on(base: u64) -> Option<u64> {
    if base == 0 { None } else { Some(base) }
}

// An item of the uuid of this number.
fn local_item(
    alloc: Global,
    uuid: u8,
    base: u64,
    latest: &str,
    posted: &str,
) -> Result<LocalItem, Fail> {
    let latest = body(alloc, latest)?;
    let posted = body(alloc, posted)?;
    let kind = Text::of(alloc, "Note")?;
    let uuid = named(uuid);
    let base = stood_on(base);
    Ok(LocalItem::new(uuid, kind, base, false, None, latest, posted).ok_or("item")?)
}

fn put(alloc: Global, number: u64, row: LocalItem) -> Result<Change, Fail> {
    Ok(Change::Put(Row {
        key: Key::Local(number),
        value: Value::Local(Boxed::of(alloc, row)?),
    }))
}

fn word_of(said: &Move) -> &'static str {
    match said {
        Move::Drop { .. } => "drop",
        Move::Fork { .. } => "fork",
        Move::GiveWay { .. } => "giveway",
        Move::Rename { .. } => "rename",
        Move::Settle { .. } | Move::SettlePosted { .. } => "settle",
        _ => "other",
    }
}

fn first(uuid: &Uuid) -> u64 {
    u64::from(uuid.as_bytes()[0])
}

// The number of the uuid that a move is of.
fn number_of(said: &Move) -> u64 {
    match said {
        Move::Drop { uuid, .. }
        | Move::Fork { uuid, .. }
        | Move::GiveWay { uuid, .. }
        | Move::Rename { uuid, .. }
        | Move::Settle { uuid, .. }
        | Move::SettlePosted { uuid, .. } => first(uuid),
        _ => 0,
    }
}

// What stands behind that number.
fn rest_of(alloc: Global, said: &Move) -> Result<String, AllocError> {
    match said {
        Move::Fork { other, .. } | Move::Rename { other, .. } => {
            format!(in alloc; " {}", first(other))
        }
        Move::SettlePosted { stamp, .. } => format!(in alloc; " @{stamp}"),
        _ => Ok(String::new(alloc)),
    }
}

// A move, with the numbers of the uuids.
fn line(alloc: Global, said: &Move) -> Result<String, AllocError> {
    let word = word_of(said);
    let number = number_of(said);
    let rest = rest_of(alloc, said)?;
    format!(in alloc; "{word} {number}{rest}")
}

fn lines(alloc: Global, moves: &[Move]) -> Result<String, AllocError> {
    let mut text = String::new(alloc);
    for said in moves {
        if !text.is_empty() {
            text.push_str(", ")?;
        }
        text.push_str(&line(alloc, said)?)?;
    }
    Ok(text)
}

// Local number, uuid, what the row stands on, its draft, and what was sent of that; no row where the uuid is 0.
type Written = (u64, u8, u64, &'static str, &'static str);

const ROWS: [Written; 8] = [
    (1, 1, 5, "draft", ""),
    (2, 2, 5, "gone", ""),
    (3, 3, 0, "draft", "sent"),
    (4, 4, 0, "gone", "sent"),
    (5, 5, 5, "gone", "gone"),
    (6, 6, 0, "draft", "sent"),
    (7, 7, 5, "", ""),
    (8, 8, 5, "draft", ""),
];

// A fork; a deletion that gives way; what was sent, and then the draft; a drop; a deletion of both sides; another uuid;
// a version that a row takes, and one of a new item; a fork from a version that is deleted.
const ANSWERED: [Written; 12] = [
    (9, 9, 0, "copy", ""),
    (1, 1, 6, "", ""),
    (2, 2, 7, "", ""),
    (3, 3, 8, "draft", ""),
    (3, 3, 9, "", ""),
    (4, 0, 0, "", ""),
    (5, 0, 0, "", ""),
    (6, 16, 0, "draft", ""),
    (7, 7, 10, "", ""),
    (10, 10, 11, "", ""),
    (11, 11, 0, "copy", ""),
    (8, 0, 0, "", ""),
];

fn change(alloc: Global, written: &Written) -> Result<Change, Fail> {
    let (number, uuid, base, latest, posted) = *written;
    if uuid == 0 {
        return Ok(Change::Remove(Key::Local(number)));
    }
    put(
        alloc,
        number,
        local_item(alloc, uuid, base, latest, posted)?,
    )
}

fn batch(alloc: Global, written: &[Written]) -> Result<Vec<Change>, Fail> {
    let mut changes = Vec::new(alloc);
    for one in written {
        changes.push(change(alloc, one)?)?;
    }
    Ok(changes)
}

fn rows(alloc: Global, changes: Vec<Change>) -> Result<RowMap, AllocError> {
    let mut rows = RowMap::new(alloc);
    rows.add_all(changes)?;
    Ok(rows)
}

fn said(alloc: Global, done: &Done, written: &[Written]) -> Result<String, Fail> {
    let rows = rows(alloc, batch(alloc, &ROWS)?)?;
    let changes = batch(alloc, written)?;
    let name = Text::of(alloc, "a")?;
    let moves = moves_of(alloc, &rows, &name, done, &changes)?;
    Ok(lines(alloc, moves.as_slice())?)
}

// Another account has the item of this uuid.
fn taken(alloc: Global, number: u8) -> Result<Conflict, AllocError> {
    let kind = Text::of(alloc, "Note")?;
    Ok(Conflict::Uuid {
        unsaved: Item {
            uuid: named(number),
            kind,
            created: None,
            updated_at: None,
            body: Body::Deleted,
        },
    })
}

fn conflicts(alloc: Global) -> Result<OwnedList<Conflict>, AllocError> {
    let mut conflicts = OwnedList::new(alloc);
    for number in [4, 6] {
        conflicts.push(taken(alloc, number)?)?;
    }
    Ok(conflicts)
}

fn answer(alloc: Global) -> Result<Answer, AllocError> {
    let conflicts = conflicts(alloc)?;
    let sync_token = Text::of(alloc, "t")?;
    Ok(Answer::Sync {
        conflicts,
        cursor_token: None,
        retrieved: OwnedList::new(alloc),
        saved: OwnedList::new(alloc),
        sync_token,
    })
}

fn is_said(alloc: Global, done: &Done, written: &[Written], want: &str) -> Result<bool, Fail> {
    Ok(said(alloc, done, written)?.as_str() == want)
}

#[test]
fn says_an_answer(rt: HostRuntime) -> Result<(), Fail> {
    let answer = answer(rt.alloc())?;
    let foreign = foreign_in(rt.alloc(), &answer)?;
    let want =
        "fork 1 9, giveway 2, settle 3 @8, settle 3, drop 4, settle 5, rename 6 16, fork 8 11";
    assert!(rt; is_said(rt.alloc(), &Done::Applies { foreign }, &ANSWERED, want)?);
    Ok(())
}
