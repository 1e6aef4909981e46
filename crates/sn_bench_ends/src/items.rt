//! Items sealed and opened alone, under a set of the same length as a device's.

ghost use Rattle.std.specs.Prelude.{IfSome, IsTrue};
ghost use Rattle.sn_items.specs.Objects.{is_object};

use crate::setting::{COST, IDENTIFIER, SEED, text_of};
use sn_items::{Sealed, Words, is_object, open_item, seal_item};
use sn_string::{KeySet, Params, Text};
use std::alloc::Global;
use uuid::Uuid;

/// The nonce of a set that a device makes has as many digits.
const NONCE: &str = "0123456789abcdef0123456789abcdef0123456789abcdef0123456789abcdef";

/// Seals a content as so many items. Answers how many bytes their strings have, and 2^64 - 1 where the content is no JSON object,
/// or memory was wanting.
#[unsafe(no_mangle)]
pub extern "C" fn sn_bench_seals(alloc: Global, content: &[u8], count: u64) -> u64 {
    match sealed(alloc, content, count) {
        Some(items) => bytes_of(&items),
        None => u64::MAX,
    }
}

/// Seals a content as so many items, and opens each so many times. Answers how many bytes all the contents have that they opened
/// to, and 2^64 - 1 where the content is no JSON object, an item doesn't open, or memory was wanting.
#[unsafe(no_mangle)]
pub extern "C" fn sn_bench_opens(alloc: Global, content: &[u8], count: u64, rounds: u64) -> u64 {
    match sealed(alloc, content, count) {
        Some(items) => opened(alloc, &items, rounds),
        None => u64::MAX,
    }
}

// An item that is sealed.
#[derive(Drop)]
struct Item {
    uuid: Uuid,
    sealed: Sealed,
}

fn key_set() -> Option<KeySet> {
    let params = Params::new(Text::fixed(IDENTIFIER), COST, Text::fixed(NONCE))?;
    Some(KeySet {
        params,
        pw: [1; 32],
        mk: [2; 32],
        ak: [3; 32],
    })
}

fn sealed(alloc: Global, content: &[u8], count: u64) -> Option<Vec<Item>> {
    let content = object_of(alloc, content)?;
    let set = key_set()?;
    let mut words = Words::from_seed(SEED);
    let mut items = Vec::new(alloc);
    'items: for _ in 0..count {
        let uuid = words.uuid();
        let sealed = seal_item(alloc, &mut words, uuid, &set, content).ok()?;
        items.push(Item { uuid, sealed }).ok()?;
    }
    Some(items)
}

fn object_of(alloc: Global, bytes: &[u8]) -> Option<&str>
    ensures { IfSome result (λ text. IsTrue (is_object text.now)) }
{
    let text = text_of(bytes)?;
    match is_object(alloc, text) {
        Ok(true) => Some(text),
        _ => None,
    }
}

fn bytes_of(items: &[Item]) -> u64 {
    let mut length = 0u64;
    'items: for item in items {
        length = length
            .saturating_add(item.sealed.content.len() as u64)
            .saturating_add(item.sealed.enc.len() as u64);
    }
    length
}

fn opened(alloc: Global, items: &[Item], rounds: u64) -> u64 {
    let Some(set) = key_set() else {
        return u64::MAX;
    };
    let mut length = 0u64;
    'rounds: for _ in 0..rounds {
        match opened_once(alloc, items, &set) {
            Some(more) => length = length.saturating_add(more),
            None => return u64::MAX,
        }
    }
    length
}

fn opened_once(alloc: Global, items: &[Item], set: &KeySet) -> Option<u64> {
    let mut length = 0u64;
    'items: for item in items {
        let content = open_item(alloc, &item.sealed, item.uuid, set).ok()?;
        length = length.saturating_add(content.len() as u64);
    }
    Some(length)
}
