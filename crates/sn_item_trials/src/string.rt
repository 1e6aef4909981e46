//! What the clauses mean at written texts.

use crate::cases::so;
use crate::given::alice;
use sn_string::*;
use std::alloc::{AllocError, Global};
use tables::{CIPHERTEXT, HASH, HASHED, IV, PARAMS, UUID, WHOLE};
use uuid::Uuid;

mod rows;
mod tables;

// Whether a text was written, and is this one.
fn is_text(written: &Result<String, AllocError>, expected: &str) -> bool {
    match written {
        Ok(text) => text.as_str() == expected,
        Err(_) => false,
    }
}

fn are_written(alloc: Global) -> bool {
    match alice() {
        Some(params) => is_text(&params_text(alloc, &params), PARAMS),
        None => false,
    }
}

fn reads_parts(alloc: Global) -> bool {
    is_whole(alloc, &read(alloc, WHOLE))
}

fn are_of_whole(parts: &Parts<'_>) -> bool {
    let texts = [
        parts.hash,
        parts.uuid,
        parts.iv,
        parts.ciphertext,
        parts.params_text,
    ];
    texts == [HASH, UUID, IV, CIPHERTEXT, PARAMS]
}

fn is_whole(alloc: Global, answer: &Result<Parts<'_>, StringError>) -> bool {
    match answer {
        Ok(parts) => are_of_whole(parts) && is_text(&authenticated(alloc, parts), HASHED),
        Err(_) => false,
    }
}

// What the hash covers is written, and then the whole text around the hash.
fn is_around_its_hash(alloc: Global, bytes: &[u8]) -> bool {
    match authenticated_text(alloc, UUID, IV, bytes, PARAMS) {
        Ok(hashed) => {
            hashed.as_str() == HASHED
                && is_hash(HASH)
                && is_text(&with_hash(alloc, hashed, HASH, PARAMS), WHOLE)
        }
        Err(_) => false,
    }
}

fn is_written(alloc: Global) -> bool {
    match base64_bytes(alloc, CIPHERTEXT) {
        Ok(Some(bytes)) => is_around_its_hash(alloc, bytes.as_slice()),
        _ => false,
    }
}

fn is_counting(alloc: Global, hash: &[u8; 32]) -> bool {
    hash[31] == 31
        && hash_digits(hash).ends_with(b"1f")
        && is_text(&hex_text(alloc, &hash[8..12]), "08090a0b")
}

fn spells_a_hash(alloc: Global) -> bool {
    match hash_bytes("000102030405060708090a0b0c0d0e0f101112131415161718191a1b1c1d1e1f") {
        Some(hash) => is_counting(alloc, &hash),
        None => false,
    }
}

fn spells_an_iv() -> bool {
    match iv_bytes("fffefdfcfbfaf9f8f7f6f5f4f3f2f1f0") {
        Some(iv) => iv[15] == 0xf0,
        None => false,
    }
}

fn spells_a_key() -> bool {
    key_bytes(
        "7f7f7f7f7f7f7f7f7f7f7f7f7f7f7f7f7f7f7f7f7f7f7f7f7f7f7f7f7f7f7f7f7f7f7f7f7f7f7f7f7f7f7f7f7f7f7f7f7f7f7f7f7f7f7f7f7f7f7f7f7f7f7f7f",
    ) == Some([0x7f; 64])
}

const ANY_UUID: &str = "f81d4fae-7dec-11d0-a765-00a0c91e6bf6";

fn spells_a_uuid(alloc: Global) -> bool {
    match uuid_of(ANY_UUID) {
        Some(uuid) => uuid.as_bytes()[0] == 0xf8 && is_text(&uuid_text(alloc, uuid), ANY_UUID),
        None => false,
    }
}

fn spells_base64(alloc: Global) -> bool {
    match base64_bytes(alloc, "Zm9vYmFyIQ==") {
        Ok(Some(bytes)) => {
            bytes.as_slice() == b"foobar!".as_slice()
                && is_text(&base64_text(alloc, b"foobar!"), "Zm9vYmFyIQ==")
        }
        _ => false,
    }
}

fn is_no_base64(alloc: Global) -> bool {
    matches!(base64_bytes(alloc, "Zm9vYmFyIR=="), Ok(None))
}

fn is_set(copy: &Result<KeySet, AllocError>, set: &KeySet) -> bool {
    match copy {
        Ok(copy) => copy.same(set),
        Err(_) => false,
    }
}

fn is_copied_set(alloc: Global, set: &KeySet) -> bool {
    is_set(&set.try_clone(alloc), set)
}

fn set_of(params: Params) -> KeySet {
    KeySet {
        params,
        pw: [1; 32],
        mk: [2; 32],
        ak: [3; 32],
    }
}

fn copies_a_set(alloc: Global) -> bool {
    match alice() {
        Some(params) => is_copied_set(alloc, &set_of(params)),
        None => false,
    }
}

fn is_alice(text: &Text) -> bool {
    text.as_str() == "alice" && text.len() == 5 && !text.is_empty()
}

fn is_copied(alloc: Global, text: &Text, same: &Text) -> bool {
    match text.try_clone(alloc) {
        Ok(copy) => is_alice(&copy) && copy.same(same),
        Err(_) => false,
    }
}

fn copies_an_owned_text(alloc: Global, alice: &Text, bob: &Text) -> bool {
    match Text::of(alloc, "alice") {
        Ok(text) => is_copied(alloc, &text, alice) && !text.same(bob),
        Err(_) => false,
    }
}

fn copies_texts(alloc: Global) -> bool {
    let (alice, bob) = (Text::fixed("alice"), Text::fixed("bob"));
    copies_an_owned_text(alloc, &alice, &bob) && is_copied(alloc, &alice, &alice)
}

fn is_ab(bytes: &Bytes) -> bool {
    bytes.as_slice() == b"ab".as_slice()
        && bytes.len() == 2
        && !bytes.is_empty()
        && bytes.same(bytes)
}

fn are_copied(alloc: Global, bytes: &Bytes) -> bool {
    match bytes.try_clone(alloc) {
        Ok(copy) => is_ab(&Bytes::of_vec(copy.into_vec())),
        Err(_) => false,
    }
}

fn copies_ab(alloc: Global) -> bool {
    match Bytes::of(alloc, b"ab") {
        Ok(bytes) => are_copied(alloc, &bytes),
        Err(_) => false,
    }
}

fn push_two(list: &mut OwnedList<Option<u32>>) -> Result<(), AllocError> {
    list.push(Some(7))?;
    list.push(None)
}

fn has_two(list: &OwnedList<Option<u32>>) -> bool {
    list.as_slice() == [Some(7u32), None].as_slice() && list.len() == 2 && !list.is_empty()
}

fn is_copied_list(alloc: Global, list: &OwnedList<Option<u32>>) -> bool {
    match list.try_clone(alloc) {
        Ok(copy) => has_two(&OwnedList::of_vec(copy.into_vec())),
        Err(_) => false,
    }
}

fn copies_a_list(alloc: Global) -> bool {
    let mut list = OwnedList::new(alloc);
    push_two(&mut list).is_ok() && is_copied_list(alloc, &list)
}

fn twice<T: TryClone>(alloc: Global, value: &T) -> Result<T, AllocError> {
    value.try_clone(alloc)
}

fn copies_numbers(alloc: Global) -> bool {
    twice(alloc, &1u8) == Ok(1) && twice(alloc, &2u64) == Ok(2) && twice(alloc, &true) == Ok(true)
}

fn copies_arrays(alloc: Global) -> bool {
    let uuid = Uuid::from_bytes([9; 16]);
    twice(alloc, &[1u8; 32]) == Ok([1; 32]) && twice(alloc, &uuid) == Ok(uuid)
}

#[test]
fn writes_and_reads(rt: HostRuntime) {
    so(&rt, "parameters", are_written(rt.alloc()));
    so(&rt, "parts", reads_parts(rt.alloc()));
    so(&rt, "a text around its hash", is_written(rt.alloc()));
}

#[test]
fn spells_bytes(rt: HostRuntime) {
    so(&rt, "a hash", spells_a_hash(rt.alloc()));
    so(&rt, "a vector or a key", spells_an_iv() && spells_a_key());
    so(&rt, "a uuid", spells_a_uuid(rt.alloc()));
    so(&rt, "base64", spells_base64(rt.alloc()));
    so(&rt, "no base64", is_no_base64(rt.alloc()));
}

#[test]
fn copies(rt: HostRuntime) {
    so(&rt, "a set", copies_a_set(rt.alloc()));
    so(&rt, "texts", copies_texts(rt.alloc()));
    so(&rt, "bytes", copies_ab(rt.alloc()));
    so(&rt, "a list", copies_a_list(rt.alloc()));
    so(&rt, "numbers", copies_numbers(rt.alloc()));
    so(&rt, "arrays", copies_arrays(rt.alloc()));
}
