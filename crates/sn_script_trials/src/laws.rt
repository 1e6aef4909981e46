//! Lists of moves with the place that the definitions refuse.

use crate::written::moves_of;
use sn_laws::first_illegal;
use std::alloc::Global;
use std::test::Fail;
use tables::LISTS;

mod tables;

fn place_of(word: &str) -> Result<Option<usize>, Fail> {
    if word == "-" {
        return Ok(None);
    }
    Ok(Some(word.parse::<usize>()?))
}

fn is_refused_at(alloc: Global, moves: &str, place: &str) -> Result<bool, Fail> {
    let want = place_of(place)?;
    let moves = moves_of(alloc, moves)?;
    let found = first_illegal(alloc, moves.as_slice())?;
    Ok(found == want)
}

fn is_right(alloc: Global, line: &str) -> Result<bool, Fail> {
    let (moves, place) = line.split_once('|').ok_or("place")?;
    is_refused_at(alloc, moves, place)
}

#[test]
fn first_illegal_places(rt: HostRuntime) -> Result<(), Fail> {
    for line in LISTS.lines() {
        if !line.is_empty() {
            assert!(rt; is_right(rt.alloc(), line)?, "at {line}");
        }
    }
    Ok(())
}
