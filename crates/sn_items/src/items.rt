// Sealing and opening an item's two strings.
ghost use Rattle.std.specs.Prelude.{◌≡◌, ℕ, List, IfOk, IfErr, IsTrue, string_bytes};
ghost use Rattle.sn_items.specs.ItemRefusals.{BothRead, ContentStringCause, ItemHasCause, KeyStringCause, SaysNonce, form_of};
ghost use Rattle.sn_items.specs.Items.{Carries, IsDrawn, IsItemSealed, OpensItem, OpensKey, authentication_half, encryption_half};
ghost use Rattle.sn_items.specs.Objects.{is_object};
ghost use Rattle.sn_items.specs.Opens.{Opens};
ghost use Rattle.sn_string.specs.Grammar.{Is003};
ghost use Rattle.sn_string.specs.Parts.{reading_of};

use crate::error::ItemError;
use crate::objects::is_object;
use crate::opening::open_parts;
use crate::sealed::{Sealed, Which};
use crate::sealing::sealed_text;
use crate::words::Words;
use sn_string::{
    KeySet, Params, Parts, StringError, Text, TryClone, hex_text, key_bytes, params_text, read,
};
use std::alloc::{AllocError, Global};
use uuid::Uuid;

/// An item's content sealed under a new key, and that key under the set's. The item's key, the
/// content's vector and the key string's vector are the next of the words, in this order.
pub fn seal_item(
    alloc: Global,
    words: &mut Words,
    uuid: Uuid,
    set: &KeySet,
    content: &str,
) -> Result<Sealed, AllocError>
    requires { IsTrue (is_object content.now) }
    ensures opens { IfOk result (λ sealed. OpensItem sealed uuid set.now content.now) }
    ensures sealed { (key : List ℕ) × (content_iv : List ℕ) × (enc_iv : List ℕ)
        × IsDrawn words.old key content_iv enc_iv words.new
        × IfOk result (λ sealed. IsItemSealed content.now uuid key content_iv enc_iv set.now sealed) }
{
    let key = words.item_key();
    let content_iv = words.iv();
    let enc_iv = words.iv();
    sealed_item(alloc, &key, &content_iv, &enc_iv, uuid, set, content)
}

fn sealed_item(
    alloc: Global,
    key: &[u8; 64],
    content_iv: &[u8; 16],
    enc_iv: &[u8; 16],
    uuid: Uuid,
    set: &KeySet,
    content: &str,
) -> Result<Sealed, AllocError>
    requires { IsTrue (is_object content.now) }
    ensures opens { IfOk result (λ sealed. OpensItem sealed uuid set.now content.now) }
    ensures sealed { IfOk result (λ sealed.
        IsItemSealed content.now uuid key.now content_iv.now enc_iv.now set.now sealed) }
{
    let last = params_text(alloc, &set.params)?;
    let (encryption_key, authentication_key) = halves(key);
    let content = sealed_text(
        alloc,
        content_iv,
        content,
        uuid,
        &encryption_key,
        &authentication_key,
        &last,
    )?;
    let digits = hex_text(alloc, key)?;
    let enc = sealed_text(alloc, enc_iv, &digits, uuid, &set.mk, &set.ak, &last)?;
    Ok(Sealed {
        content: Text::of_string(content),
        enc: Text::of_string(enc),
    })
}

/// The content of an item that is sealed under the set. The forms of both strings and their
/// parameters are compared before anything is opened.
pub fn open_item(
    alloc: Global,
    sealed: &Sealed,
    uuid: Uuid,
    set: &KeySet,
) -> Result<String, (Which, ItemError)>
    ensures ok { IfOk result (λ content. OpensItem sealed.now uuid set.now (string_bytes content)) }
    ensures err { IfErr result (λ why. ItemHasCause sealed.now uuid set.now why.0 why.1) }
{
    let (enc, content) = read_both(alloc, sealed, uuid, set)?;
    let key = match item_key(alloc, &enc, uuid, set) {
        Ok(key) => key,
        Err(error) => return Err((Which::Enc, error)),
    };
    match item_content(alloc, &content, uuid, &key) {
        Ok(content) => Ok(content),
        Err(error) => Err((Which::Content, error)),
    }
}

// The parts of the key string and of the content string, where both carry the set's parameters.
fn read_both<'s>(
    alloc: Global,
    sealed: &'s Sealed,
    uuid: Uuid,
    set: &KeySet,
) -> Result<(Parts<'s>, Parts<'s>), (Which, ItemError)>
    ensures read { IfOk result (λ both. BothRead sealed.now (reading_of both.0) (reading_of both.1)) }
    ensures carries { IfOk result (λ _. Carries sealed.now set.now.params) }
    ensures err { IfErr result (λ why. ItemHasCause sealed.now uuid set.now why.0 why.1) }
{
    let enc = match read(alloc, sealed.enc.as_str()) {
        Ok(parts) => parts,
        Err(error) => return Err((Which::Enc, form_error(error))),
    };
    let content = match read(alloc, sealed.content.as_str()) {
        Ok(parts) => parts,
        Err(error) => return Err((Which::Content, form_error(error))),
    };
    if !enc.params.same(&set.params) {
        return Err((Which::Enc, other_set(alloc, &enc.params)));
    }
    if !content.params.same(&set.params) {
        return Err((Which::Content, other_set(alloc, &content.params)));
    }
    Ok((enc, content))
}

fn form_error(error: StringError) -> ItemError
    ensures { result ≡ form_of error }
{
    match error {
        StringError::Memory => ItemError::Memory,
        error => ItemError::Form(error),
    }
}

fn other_set(alloc: Global, params: &Params) -> ItemError
    ensures { SaysNonce params.now.pw_nonce result }
{
    match params.pw_nonce.try_clone(alloc) {
        Ok(nonce) => ItemError::OtherSet { nonce },
        Err(_) => ItemError::Memory,
    }
}

fn item_key(alloc: Global, enc: &Parts, uuid: Uuid, set: &KeySet) -> Result<[u8; 64], ItemError>
    requires { (text : List ℕ) × Is003 text (reading_of enc.now) }
    ensures ok { IfOk result (λ key. (text : List ℕ) → Is003 text (reading_of enc.now) → OpensKey text uuid set.now key) }
    ensures err { IfErr result (λ error. (text : List ℕ) → Is003 text (reading_of enc.now) → KeyStringCause text uuid set.now error) }
{
    let digits = open_parts(alloc, enc, uuid, &set.mk, &set.ak)?;
    match key_bytes(&digits) {
        Some(key) => Ok(key),
        None => Err(ItemError::NotItemKey),
    }
}

fn item_content(
    alloc: Global,
    content: &Parts,
    uuid: Uuid,
    key: &[u8; 64],
) -> Result<String, ItemError>
    requires { (text : List ℕ) × Is003 text (reading_of content.now) }
    ensures ok { IfOk result (λ plain. (text : List ℕ) → Is003 text (reading_of content.now)
        → Opens text uuid (encryption_half key.now) (authentication_half key.now) (string_bytes plain)) }
    ensures object { IfOk result (λ plain. IsTrue (is_object (string_bytes plain))) }
    ensures err { IfErr result (λ error. (text : List ℕ) → Is003 text (reading_of content.now) → ContentStringCause text uuid key.now error) }
{
    let (encryption_key, authentication_key) = halves(key);
    let text = open_parts(alloc, content, uuid, &encryption_key, &authentication_key)?;
    if is_object(alloc, &text)? {
        Ok(text)
    } else {
        Err(ItemError::NotObject)
    }
}

/// The halves of an item's key: the one that encrypts its content, and the one that authenticates it.
pub fn halves(key: &[u8; 64]) -> ([u8; 32], [u8; 32])
    ensures first { result.0 ≡ encryption_half key.now }
    ensures second { result.1 ≡ authentication_half key.now }
{
    let (front, back) = key.split_at(32);
    let mut first = [0u8; 32];
    let mut second = [0u8; 32];
    first.copy_from_slice(front);
    second.copy_from_slice(back);
    (first, second)
}
