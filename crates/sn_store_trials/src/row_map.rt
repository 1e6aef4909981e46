// Steps over rows that were put out of order, with room alone between them.
use sn_row_map::RowMap;
use sn_rows::{Change, GenerationRow, Key, Row, RowKind, Value};
use sn_string::Text;
use std::alloc::Global;

fn generation(alloc: Global, account: u64, number: u64) -> Option<Change> {
    let nonce = Text::of(alloc, "nonce").ok()?;
    let row = GenerationRow::new(110_000, nonce)?;
    Some(Change::Put(Row {
        key: Key::Generation(account, number),
        value: Value::Generation(row),
    }))
}

// A put of each of these generations.
fn puts(alloc: Global, keys: &[(u64, u64)]) -> Option<Vec<Change>> {
    let mut changes = Vec::new(alloc);
    for (account, number) in keys {
        changes.push(generation(alloc, *account, *number)?).ok()?;
    }
    Some(changes)
}

fn three(alloc: Global) -> Option<RowMap> {
    let changes = puts(alloc, &[(2, 1), (1, 300), (1, 2)])?;
    let mut map = RowMap::new(alloc);
    map.add_all(changes).ok()?;
    Some(map)
}

fn first(map: &RowMap) -> Option<Key> {
    let (key, _) = map.first(RowKind::Generation)?;
    Some(*key)
}

fn behind(map: &RowMap, account: u64, number: u64) -> Option<Key> {
    let (key, _) = map.next_after(&Key::Generation(account, number))?;
    Some(*key)
}

fn walked(map: &RowMap) -> bool {
    first(map) == Some(Key::Generation(1, 2))
        && behind(map, 1, 2) == Some(Key::Generation(1, 300))
        && behind(map, 1, 4) == Some(Key::Generation(1, 300))
        && behind(map, 1, 300) == Some(Key::Generation(2, 1))
        && behind(map, 2, 1) == None
}

// With room alone before and behind the row of 1 and 2, and without it.
fn steps_past_room(alloc: Global, map: &mut RowMap) -> bool {
    let Some(rooms) = puts(alloc, &[(1, 1), (1, 3)]) else {
        return false;
    };
    let is_made = map.make_room_for(&rooms).is_ok() && walked(map);
    map.sweep_for(&rooms);
    is_made && walked(map)
}

fn steps(alloc: Global) -> bool {
    match three(alloc) {
        Some(mut map) => walked(&map) && steps_past_room(alloc, &mut map),
        None => false,
    }
}

#[test]
fn steps_in_the_order_of_keys(rt: HostRuntime) {
    assert!(rt; steps(rt.alloc()));
}
