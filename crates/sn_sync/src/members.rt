//! What the members of a JSON object say.

ghost use Rattle.std.specs.Prelude.{◌≡◌, ◌⊎◌, ◌↔◌, ◌≤◌, ℕ, length, Bool, Some, IsTrue, IfErr, IfNone, IfOk, IfSome, codes};
ghost use Rattle.serde_json.specs.Data.{null, boolean};
ghost use Rattle.serde_json.specs.Find.{get};
ghost use Rattle.sn_json.specs.Views.{view};
ghost use Rattle.sn_sync.specs.Items.{SaysKind};
ghost use Rattle.sn_sync.specs.Members.{Bytes, IsLeftOut, IsSessionToken, SaysCost, SaysFlag, SaysHash, SaysIdentifier, SaysNonce, SaysNullable, SaysNumber, SaysOptional, SaysSessionToken, SaysStamp, SaysStampText, SaysText, SaysTextOrEmpty, SaysUuid, SaysWord};
ghost use Rattle.sn_sync.specs.Refusals.{Caused, Lacks};
ghost use Rattle.sn_string.specs.Bounds.{last_stamp};
ghost use Rattle.sn_sync.specs.declared.error.SyncError.TheVariants as error;

use crate::error::SyncError;
use crate::stamp::Stamp;
use sn_json::Node;
use sn_string::{Text, hash_bytes, uuid_of};
use std::alloc::Global;
use uuid::Uuid;

/// A text.
pub(crate) fn text_in(
    alloc: Global,
    body: Node<'_, '_>,
    name: &'static str,
) -> Result<Text, SyncError>
    ensures ok { IfOk result (SaysText (get name.now (view body.entry))) }
    ensures err { IfErr result (Caused (Lacks (SaysText (get name.now (view body.entry))) name.now)) }
{
    match text_of(body, name) {
        Some(text) => Ok(Text::of(alloc, text)?),
        None => Err(lacks(name)),
    }
}

/// An identifier, 1 to 254 bytes.
pub(crate) fn identifier_in(
    alloc: Global,
    body: Node<'_, '_>,
    name: &'static str,
) -> Result<Text, SyncError>
    ensures ok { IfOk result (SaysIdentifier (get name.now (view body.entry))) }
    ensures err { IfErr result (Caused (Lacks (SaysIdentifier (get name.now (view body.entry))) name.now)) }
{
    sized_in(alloc, body, name, 254)
}

/// A nonce, 1 to 256 bytes.
pub(crate) fn nonce_in(
    alloc: Global,
    body: Node<'_, '_>,
    name: &'static str,
) -> Result<Text, SyncError>
    ensures ok { IfOk result (SaysNonce (get name.now (view body.entry))) }
    ensures err { IfErr result (Caused (Lacks (SaysNonce (get name.now (view body.entry))) name.now)) }
{
    sized_in(alloc, body, name, 256)
}

/// A cost, 1 to 4294967295, without fraction or exponent.
pub(crate) fn cost_in(body: Node<'_, '_>, name: &'static str) -> Result<u32, SyncError>
    ensures ok { IfOk result (SaysCost (get name.now (view body.entry))) }
    ensures err { IfErr result (Caused (Lacks (SaysCost (get name.now (view body.entry))) name.now)) }
{
    match cost_of(body, name) {
        Some(cost) => Ok(cost),
        None => Err(lacks(name)),
    }
}

/// 32 bytes in lower-case hex.
pub(crate) fn hash_in(body: Node<'_, '_>, name: &'static str) -> Result<[u8; 32], SyncError>
    ensures ok { IfOk result (SaysHash (get name.now (view body.entry))) }
    ensures err { IfErr result (Caused (Lacks (SaysHash (get name.now (view body.entry))) name.now)) }
{
    match hash_of(body, name) {
        Some(bytes) => Ok(bytes),
        None => Err(lacks(name)),
    }
}

/// A uuid in lower case with hyphens.
pub(crate) fn uuid_in(body: Node<'_, '_>, name: &'static str) -> Result<Uuid, SyncError>
    ensures ok { IfOk result (SaysUuid (get name.now (view body.entry))) }
    ensures err { IfErr result (Caused (Lacks (SaysUuid (get name.now (view body.entry))) name.now)) }
{
    match named_uuid(body, name) {
        Some(uuid) => Ok(uuid),
        None => Err(lacks(name)),
    }
}

/// A text, or nothing where it is null or left out.
pub(crate) fn optional_in(
    alloc: Global,
    body: Node<'_, '_>,
    name: &'static str,
) -> Result<Option<Text>, SyncError>
    ensures ok { IfOk result (SaysOptional (get name.now (view body.entry))) }
    ensures err { IfErr result (Caused (Lacks (SaysOptional (get name.now (view body.entry))) name.now)) }
{
    match text_of(body, name) {
        Some(text) => Ok(Some(Text::of(alloc, text)?)),
        None if is_left_out(body, name) => Ok(None),
        None => Err(lacks(name)),
    }
}

/// A text or null.
pub(crate) fn nullable_in(
    alloc: Global,
    body: Node<'_, '_>,
    name: &'static str,
) -> Result<Option<Text>, SyncError>
    ensures ok { IfOk result (SaysNullable (get name.now (view body.entry))) }
    ensures err { IfErr result (Caused (Lacks (SaysNullable (get name.now (view body.entry))) name.now)) }
{
    match text_of(body, name) {
        Some(text) => Ok(Some(Text::of(alloc, text)?)),
        None if is_null(body, name) => Ok(None),
        None => Err(lacks(name)),
    }
}

/// A text, which is empty where it is null or left out.
pub(crate) fn text_or_empty_in(
    alloc: Global,
    body: Node<'_, '_>,
    name: &'static str,
) -> Result<Text, SyncError>
    ensures ok { IfOk result (SaysTextOrEmpty (get name.now (view body.entry))) }
    ensures err { IfErr result (Caused (Lacks (SaysTextOrEmpty (get name.now (view body.entry))) name.now)) }
{
    match text_or_empty(body, name) {
        Some(text) => Ok(Text::of(alloc, text)?),
        None => Err(lacks(name)),
    }
}

/// True or false, and false where it is null or left out.
pub(crate) fn flag_in(body: Node<'_, '_>, name: &'static str) -> Result<bool, SyncError>
    ensures ok { IfOk result (SaysFlag (get name.now (view body.entry))) }
    ensures err { IfErr result (Caused (Lacks (SaysFlag (get name.now (view body.entry))) name.now)) }
{
    match flag_of(body, name) {
        Some(flag) => Ok(flag),
        None if is_left_out(body, name) => Ok(false),
        None => Err(lacks(name)),
    }
}

/// A stamp, by its text.
pub(crate) fn stamp_in(body: Node<'_, '_>, name: &'static str) -> Result<u64, SyncError>
    ensures ok { IfOk result (SaysStamp (get name.now (view body.entry))) }
    ensures bound { IfOk result (λ stamp. stamp ≤ last_stamp) }
    ensures err { IfErr result (Caused (Lacks (SaysStamp (get name.now (view body.entry))) name.now)) }
{
    match stamp_of(body, name) {
        Some(stamp) => Ok(stamp),
        None => Err(lacks(name)),
    }
}

/// The text of a stamp.
pub(crate) fn stamp_text_in(
    alloc: Global,
    body: Node<'_, '_>,
    name: &'static str,
) -> Result<Text, SyncError>
    ensures ok { IfOk result (SaysStampText (get name.now (view body.entry))) }
    ensures err { IfErr result (Caused (Lacks (SaysStampText (get name.now (view body.entry))) name.now)) }
{
    match stamp_text_of(body, name) {
        Some(text) => Ok(Text::of(alloc, text)?),
        None => Err(lacks(name)),
    }
}

/// A session token, 1 to 1,024 letters, digits and signs of ASCII.
pub(crate) fn session_token_in(
    alloc: Global,
    body: Node<'_, '_>,
    name: &'static str,
) -> Result<Text, SyncError>
    ensures ok { IfOk result (SaysSessionToken (get name.now (view body.entry))) }
    ensures err { IfErr result (Caused (Lacks (SaysSessionToken (get name.now (view body.entry))) name.now)) }
{
    match text_of(body, name) {
        Some(text) if is_session_token(text) => Ok(Text::of(alloc, text)?),
        _ => Err(lacks(name)),
    }
}

/// The one text that is allowed.
pub(crate) fn word_in(body: Node<'_, '_>, name: &'static str, word: &str) -> Result<(), SyncError>
    ensures ok { IfOk result (λ _. SaysWord word.now (get name.now (view body.entry)) word.now) }
    ensures err { IfErr result (Caused (Lacks (SaysWord word.now (get name.now (view body.entry))) name.now)) }
{
    match text_of(body, name) {
        Some(text) if text == word => Ok(()),
        _ => Err(lacks(name)),
    }
}

/// An item's type of at least so many bytes, and at most 255.
pub(crate) fn kind_in(alloc: Global, body: Node<'_, '_>, least: usize) -> Result<Text, SyncError>
    ensures ok { IfOk result (SaysKind least (get (codes "content_type") (view body.entry))) }
    ensures err { IfErr result (Caused (Lacks (SaysKind least (get (codes "content_type") (view body.entry))) (codes "content_type"))) }
{
    match kind_of(body, least) {
        Some(kind) => Ok(Text::of(alloc, kind)?),
        None => Err(lacks("content_type")),
    }
}

/// The refusal of the member of this name. Takes no memory.
pub(crate) fn lacks(name: &'static str) -> SyncError
    ensures { result ≡ error.Member name.now }
{
    SyncError::Member {
        name: Text::fixed(name),
    }
}

/// Whether the member is null, or there is none.
pub(crate) fn is_left_out(body: Node<'_, '_>, name: &str) -> bool
    ensures { IsTrue result ↔ IsLeftOut (get name.now (view body.entry)) }
{
    match body.get(name) {
        Some(value) => value.is_null(),
        None => true,
    }
}

/// The whole number, without fraction or exponent.
pub(crate) fn number_of(body: Node<'_, '_>, name: &str) -> Option<u64>
    ensures some { IfSome result (SaysNumber (get name.now (view body.entry))) }
    ensures none { IfNone result ((n : ℕ) → ¬ (SaysNumber (get name.now (view body.entry)) n)) }
{
    body.get(name).and_then(Node::as_u64)
}

// A text of at least one byte and at most so many.
fn sized_in(
    alloc: Global,
    body: Node<'_, '_>,
    name: &'static str,
    most: usize,
) -> Result<Text, SyncError>
    ensures ok { IfOk result (λ text. SaysText (get name.now (view body.entry)) text × ((1 ≤ length text) × (length text ≤ most))) }
    ensures err { IfErr result (Caused (Lacks (λ text. SaysText (get name.now (view body.entry)) text × ((1 ≤ length text) × (length text ≤ most))) name.now)) }
{
    match text_of(body, name) {
        Some(text) if 1 <= text.len() && text.len() <= most => Ok(Text::of(alloc, text)?),
        _ => Err(lacks(name)),
    }
}

pub(crate) fn text_of<'a>(body: Node<'_, 'a>, name: &str) -> Option<&'a str>
    ensures some { IfSome result (λ text. SaysText (get name.now (view body.entry)) text.now) }
    ensures none { IfNone result ((text : Bytes) → ¬ (SaysText (get name.now (view body.entry)) text)) }
{
    body.get(name).and_then(Node::as_str)
}

fn cost_of(body: Node<'_, '_>, name: &str) -> Option<u32>
    ensures some { IfSome result (SaysCost (get name.now (view body.entry))) }
    ensures none { IfNone result ((cost : ℕ) → ¬ (SaysCost (get name.now (view body.entry)) cost)) }
{
    let number = number_of(body, name)?;
    match u32::try_from(number) {
        Ok(cost) if cost != 0 => Some(cost),
        _ => None,
    }
}

fn hash_of(body: Node<'_, '_>, name: &str) -> Option<[u8; 32]>
    ensures some { IfSome result (SaysHash (get name.now (view body.entry))) }
    ensures none { IfNone result ((bytes : Bytes) → ¬ (SaysHash (get name.now (view body.entry)) bytes)) }
{
    hash_bytes(text_of(body, name)?)
}

pub(crate) fn named_uuid(body: Node<'_, '_>, name: &str) -> Option<Uuid>
    ensures some { IfSome result (SaysUuid (get name.now (view body.entry))) }
    ensures none { IfNone result ((uuid : Bytes) → ¬ (SaysUuid (get name.now (view body.entry)) uuid)) }
{
    uuid_of(text_of(body, name)?)
}

fn is_null(body: Node<'_, '_>, name: &str) -> bool
    ensures { IsTrue result ↔ (get name.now (view body.entry) ≡ Some null) }
{
    match body.get(name) {
        Some(value) => value.is_null(),
        None => false,
    }
}

fn text_or_empty<'a>(body: Node<'_, 'a>, name: &str) -> Option<&'a str>
    ensures some { IfSome result (λ text. SaysTextOrEmpty (get name.now (view body.entry)) text.now) }
    ensures none { IfNone result ((text : Bytes) → ¬ (SaysTextOrEmpty (get name.now (view body.entry)) text)) }
{
    match text_of(body, name) {
        Some(text) => Some(text),
        None if is_left_out(body, name) => Some(""),
        None => None,
    }
}

#[tactic(auto, using(crate::proofs::OneValue::no_kind))]
fn kind_of<'a>(body: Node<'_, 'a>, least: usize) -> Option<&'a str>
    ensures some { IfSome result (λ kind. SaysKind least (get (codes "content_type") (view body.entry)) kind.now) }
    ensures none { IfNone result ((kind : Bytes) → ¬ (SaysKind least (get (codes "content_type") (view body.entry)) kind)) }
{
    let kind = text_or_empty(body, "content_type")?;
    if least <= kind.len() && kind.len() <= 255 {
        Some(kind)
    } else {
        None
    }
}

fn flag_of(body: Node<'_, '_>, name: &str) -> Option<bool>
    ensures some { IfSome result (λ flag. get name.now (view body.entry) ≡ Some (boolean flag)) }
    ensures none { IfNone result ((flag : Bool) → ¬ (get name.now (view body.entry) ≡ Some (boolean flag))) }
{
    body.get(name).and_then(Node::as_bool)
}

fn stamp_of(body: Node<'_, '_>, name: &str) -> Option<u64>
    ensures some { IfSome result (SaysStamp (get name.now (view body.entry))) }
    ensures bound { IfSome result (λ stamp. stamp ≤ last_stamp) }
    ensures none { IfNone result ((stamp : ℕ) → ¬ (SaysStamp (get name.now (view body.entry)) stamp)) }
{
    Stamp::read(text_of(body, name)?).ok()
}

fn stamp_text_of<'a>(body: Node<'_, 'a>, name: &str) -> Option<&'a str>
    ensures some { IfSome result (λ text. SaysStampText (get name.now (view body.entry)) text.now) }
    ensures none { IfNone result ((text : Bytes) → ¬ (SaysStampText (get name.now (view body.entry)) text)) }
{
    let text = text_of(body, name)?;
    match Stamp::read(text) {
        Ok(_) => Some(text),
        Err(_) => None,
    }
}

fn is_session_token(text: &str) -> bool
    ensures { IsTrue result ↔ IsSessionToken text.now }
{
    1 <= text.len() && text.len() <= 1024 && text.as_bytes().iter().all(|c| 33 <= *c && *c <= 126)
}
