//! Moves, written in words. Moves stand between semicolons, and the words of a move between spaces.
//!
//! `register IDENTIFIER`, `join DEVICE IDENTIFIER SET`, `edit DEVICE ITEM TYPE BASE TEXT`, `post DEVICE ITEM`,
//! `accept DEVICE ITEM STAMP SET`, `settle DEVICE ITEM`, `drop DEVICE ITEM`, `unpost DEVICE ITEM`,
//! `rewrap ITEM STAMP SET`, `settle-posted DEVICE ITEM STAMP`, `fork DEVICE ITEM OTHER`, `rename DEVICE ITEM OTHER`,
//! `give-way DEVICE ITEM`, `change IDENTIFIER NONCE NUMBER`, `retire DEVICE SET`. An account's first set has the nonce 6e.
//! An item is the last byte of a uuid whose others are 0. A base or a set is `-` for none. A text is `deleted` for a
//! deletion, and `*N` for an object text of N bytes.

use sn_laws::{Content, Move};
use sn_string::{KeySet, OwnedList, Params, Text};
use std::alloc::{AllocError, Global};
use std::test::Fail;
use uuid::Uuid;

pub fn pieces_of<'a>(
    alloc: Global,
    text: &'a str,
    between: char,
) -> Result<Vec<&'a str>, AllocError> {
    let mut pieces = Vec::new(alloc);
    for piece in text.split(between) {
        pieces.push(piece)?;
    }
    Ok(pieces)
}

fn word<'a>(words: &[&'a str], place: usize) -> &'a str {
    words.get(place).copied().unwrap_or("")
}

fn text(alloc: Global, words: &[&str], place: usize) -> Result<Text, AllocError> {
    Text::of(alloc, word(words, place))
}

pub fn number(words: &[&str], place: usize) -> Result<u64, Fail> {
    Ok(word(words, place).parse::<u64>()?)
}

fn number_or_none(words: &[&str], place: usize) -> Result<Option<u64>, Fail> {
    if word(words, place) == "-" {
        return Ok(None);
    }
    Ok(Some(number(words, place)?))
}

pub fn numbered(number: u8) -> Uuid {
    let mut bytes = [0u8; 16];
    bytes[15] = number;
    Uuid::from_bytes(bytes)
}

fn item(words: &[&str], place: usize) -> Result<Uuid, Fail> {
    Ok(numbered(word(words, place).parse::<u8>()?))
}

fn set_of(alloc: Global, identifier: &str, nonce: &str) -> Result<KeySet, Fail> {
    let nonce = Text::of(alloc, nonce)?;
    let identifier = Text::of(alloc, identifier)?;
    Ok(KeySet {
        params: Params::new(identifier, 1, nonce).ok_or("params")?,
        pw: [0; 32],
        mk: [1; 32],
        ak: [2; 32],
    })
}

fn long_object(alloc: Global, length: usize) -> Result<Text, AllocError> {
    let mut text = "{\"n\":\"".to_string(alloc)?;
    for _ in 8..length {
        text.push('x')?;
    }
    text.push_str("\"}")?;
    Ok(Text::of_string(text))
}

fn object(alloc: Global, word: &str) -> Result<Text, Fail> {
    match word.strip_prefix("*") {
        Some(length) => Ok(long_object(alloc, length.parse::<usize>()?)?),
        None => Ok(Text::of(alloc, word)?),
    }
}

fn content(alloc: Global, word: &str) -> Result<Content, Fail> {
    if word == "deleted" {
        return Ok(Content::Deleted);
    }
    Ok(Content::Plain(object(alloc, word)?))
}

fn register(alloc: Global, words: &[&str]) -> Result<Move, Fail> {
    let set = set_of(alloc, word(words, 1), "6e")?;
    let identifier = text(alloc, words, 1)?;
    Ok(Move::Register { identifier, set })
}

fn change(alloc: Global, words: &[&str]) -> Result<Move, Fail> {
    let number = number(words, 3)?;
    let set = set_of(alloc, word(words, 1), word(words, 2))?;
    let identifier = text(alloc, words, 1)?;
    Ok(Move::Change {
        identifier,
        number,
        set,
    })
}

fn join(alloc: Global, words: &[&str]) -> Result<Move, Fail> {
    let number = number(words, 3)?;
    let device = text(alloc, words, 1)?;
    let identifier = text(alloc, words, 2)?;
    Ok(Move::Join {
        device,
        identifier,
        number,
    })
}

fn retire(alloc: Global, words: &[&str]) -> Result<Move, Fail> {
    let number = number(words, 2)?;
    let device = text(alloc, words, 1)?;
    Ok(Move::Retire { device, number })
}

fn rewrap(words: &[&str]) -> Result<Move, Fail> {
    let uuid = item(words, 1)?;
    let stamp = number(words, 2)?;
    let under = number(words, 3)?;
    Ok(Move::Rewrap { uuid, stamp, under })
}

fn edit(alloc: Global, words: &[&str]) -> Result<Move, Fail> {
    let uuid = item(words, 2)?;
    let base = number_or_none(words, 4)?;
    let latest = content(alloc, word(words, 5))?;
    let kind = text(alloc, words, 3)?;
    let device = text(alloc, words, 1)?;
    Ok(Move::Edit {
        device,
        uuid,
        kind,
        base,
        latest,
    })
}

fn accept(alloc: Global, words: &[&str]) -> Result<Move, Fail> {
    let uuid = item(words, 2)?;
    let stamp = number(words, 3)?;
    let under = number_or_none(words, 4)?;
    let device = text(alloc, words, 1)?;
    Ok(Move::Accept {
        device,
        uuid,
        stamp,
        under,
    })
}

fn settle_posted(alloc: Global, words: &[&str]) -> Result<Move, Fail> {
    let uuid = item(words, 2)?;
    let stamp = number(words, 3)?;
    let device = text(alloc, words, 1)?;
    Ok(Move::SettlePosted {
        device,
        uuid,
        stamp,
    })
}

fn fork(alloc: Global, words: &[&str]) -> Result<Move, Fail> {
    let uuid = item(words, 2)?;
    let other = item(words, 3)?;
    let device = text(alloc, words, 1)?;
    Ok(Move::Fork {
        device,
        uuid,
        other,
    })
}

fn rename(alloc: Global, words: &[&str]) -> Result<Move, Fail> {
    let uuid = item(words, 2)?;
    let other = item(words, 3)?;
    let device = text(alloc, words, 1)?;
    Ok(Move::Rename {
        device,
        uuid,
        other,
    })
}

// A move of a device and an item alone.
fn short_move(name: &str, device: Text, uuid: Uuid) -> Option<Move> {
    match name {
        "drop" => Some(Move::Drop { device, uuid }),
        "post" => Some(Move::Post { device, uuid }),
        "unpost" => Some(Move::Unpost { device, uuid }),
        "settle" => Some(Move::Settle { device, uuid }),
        "give-way" => Some(Move::GiveWay { device, uuid }),
        _ => None,
    }
}

fn short(alloc: Global, words: &[&str]) -> Result<Move, Fail> {
    let uuid = item(words, 2)?;
    let device = text(alloc, words, 1)?;
    Ok(short_move(word(words, 0), device, uuid).ok_or("move")?)
}

fn draft_move(alloc: Global, words: &[&str]) -> Result<Move, Fail> {
    match word(words, 0) {
        "edit" => edit(alloc, words),
        "accept" => accept(alloc, words),
        "settle-posted" => settle_posted(alloc, words),
        "fork" => fork(alloc, words),
        "rename" => rename(alloc, words),
        _ => short(alloc, words),
    }
}

// A move of an account or its sets, or else of a draft.
fn move_with(alloc: Global, words: &[&str]) -> Result<Move, Fail> {
    match word(words, 0) {
        "register" => register(alloc, words),
        "join" => join(alloc, words),
        "rewrap" => rewrap(words),
        "change" => change(alloc, words),
        "retire" => retire(alloc, words),
        _ => draft_move(alloc, words),
    }
}

fn move_of(alloc: Global, line: &str) -> Result<Move, Fail> {
    let words = pieces_of(alloc, line, ' ')?;
    move_with(alloc, &words)
}

pub fn moves_of(alloc: Global, line: &str) -> Result<OwnedList<Move>, Fail> {
    let mut moves = OwnedList::new(alloc);
    for said in line.split(';') {
        if !said.is_empty() {
            moves.push(move_of(alloc, said)?)?;
        }
    }
    Ok(moves)
}
