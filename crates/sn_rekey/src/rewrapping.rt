//! Items sealed again under another key set.

ghost use Rattle.std.specs.Prelude.{◌≡◌, ◌≢◌, ℕ, List, None, IfErr, IfNone, IfOk, IfSome, string_bytes};
ghost use Rattle.sn_items.specs.ItemRefusals.{ItemHasCause};
ghost use Rattle.sn_items.specs.Items.{OpensItem};
ghost use Rattle.sn_items.specs.Opens.{Opens};
ghost use Rattle.sn_items.specs.declared.error.ItemError.TheVariants.{Memory};
ghost use Rattle.sn_rekey.specs.Rewraps.{DrawsOneAtMost, OpensNotOlder, RefusalDraws, Rewraps, RewrapsHeld, RewrapsItem, RewrapsOlder};
ghost use Rattle.sn_rows.specs.Bounds.{HasDeviceLengths};
ghost use Rattle.sn_rows.specs.declared.body.RowStrings.{RowStrings};
ghost use Rattle.sn_sets.specs.Seals.{IsLater};
ghost use Rattle.sn_sets.specs.Sets.{OpensNot, OpensNowhere, sealed_of};

use sn_items::{ItemError, Sealed, Which, Words, open_item, open_text, seal_owned_text};
use sn_rows::RowStrings;
use sn_sets::{Sets, sealed_strings};
use sn_string::{KeySet, Text, with_params};
use std::alloc::{AllocError, Global};
use uuid::Uuid;

/// An item of the one set, sealed again under the other: its key under a new vector, which is the next
/// of the words, and its content under the same key and vector as before. A refusal is that of
/// `open_item`, and draws nothing.
pub fn rewrap(
    alloc: Global,
    words: &mut Words,
    sealed: &Sealed,
    uuid: Uuid,
    from: &KeySet,
    to: &KeySet,
) -> Result<Sealed, (Which, ItemError)>
    ensures ok { IfOk result (λ again. RewrapsItem from.now to.now words.old uuid sealed.now again words.new) }
    ensures err { IfErr result (λ why. ItemHasCause sealed.now uuid from.now why.0 why.1) }
    ensures refused { IfErr result (λ why. RefusalDraws words.old why.1 words.new) }
    ensures words { IsLater words.old words.new }
{
    check_opens(alloc, sealed, uuid, from)?;
    match sealed_again(alloc, words, sealed, uuid, from, to) {
        Ok(again) => Ok(again),
        Err(_) => Err((Which::Enc, ItemError::Memory)),
    }
}

/// The strings of a row sealed again under a set, where they open under a set that is held: the present
/// one, or else the older. Where they open under neither nothing is drawn.
pub fn rewrap_held(
    alloc: Global,
    words: &mut Words,
    strings: &RowStrings,
    uuid: Uuid,
    sets: &Sets,
    to: &KeySet,
) -> Result<Option<RowStrings>, AllocError>
    ensures some { IfOk result (λ found. IfSome found (λ again. RewrapsHeld sets.now to.now words.old uuid (sealed_of strings.now) (sealed_of again) words.new)) }
    ensures none { IfOk result (λ found. IfNone found (OpensNowhere sets.now uuid (sealed_of strings.now) × (words.new ≡ words.old))) }
    ensures words { IsLater words.old words.new }
{
    let sealed = sealed_strings(alloc, strings)?;
    match rewrap_under(alloc, words, &sealed, uuid, &sets.present, to)? {
        Some(again) => Ok(Some(again)),
        None => rewrap_under_older(alloc, words, &sealed, uuid, sets, to),
    }
}

/// The strings of a row sealed again under the present set, where they open under the older set and not
/// under the present one. Elsewhere nothing is drawn.
pub fn rewrap_older(
    alloc: Global,
    words: &mut Words,
    strings: &RowStrings,
    uuid: Uuid,
    sets: &Sets,
) -> Result<Option<RowStrings>, AllocError>
    ensures some { IfOk result (λ found. IfSome found (λ again. RewrapsOlder sets.now sets.now.present words.old uuid (sealed_of strings.now) (sealed_of again) words.new)) }
    ensures none { IfOk result (λ found. IfNone found (OpensNotOlder sets.now uuid (sealed_of strings.now) × (words.new ≡ words.old))) }
    ensures words { IsLater words.old words.new }
{
    if sets.older.is_none() {
        return Ok(None);
    }
    let sealed = sealed_strings(alloc, strings)?;
    match check_opens(alloc, &sealed, uuid, &sets.present) {
        Ok(()) => Ok(None),
        Err((_, error)) => {
            refused(error)?;
            rewrap_under_older(alloc, words, &sealed, uuid, sets, &sets.present)
        }
    }
}

// The same under the older set, of strings of a row that don't open under the present one.
fn rewrap_under_older(
    alloc: Global,
    words: &mut Words,
    sealed: &Sealed,
    uuid: Uuid,
    sets: &Sets,
    to: &KeySet,
) -> Result<Option<RowStrings>, AllocError>
    requires of_row { (strings : RowStrings) × (sealed.now ≡ sealed_of strings) }
    requires closed { OpensNot sets.now.present uuid sealed.now }
    ensures some { IfOk result (λ found. IfSome found (λ again. RewrapsOlder sets.now to.now words.old uuid sealed.now (sealed_of again) words.new)) }
    ensures none { IfOk result (λ found. IfNone found (OpensNowhere sets.now uuid sealed.now × (words.new ≡ words.old))) }
    ensures words { IsLater words.old words.new }
{
    match &sets.older {
        Some(older) => rewrap_under(alloc, words, sealed, uuid, older, to),
        None => Ok(None),
    }
}

// The strings of a row sealed again under a set, where they open under another.
fn rewrap_under(
    alloc: Global,
    words: &mut Words,
    sealed: &Sealed,
    uuid: Uuid,
    from: &KeySet,
    to: &KeySet,
) -> Result<Option<RowStrings>, AllocError>
    requires { (strings : RowStrings) × (sealed.now ≡ sealed_of strings) }
    ensures some { IfOk result (λ found. IfSome found (λ again. RewrapsItem from.now to.now words.old uuid sealed.now (sealed_of again) words.new)) }
    ensures none { IfOk result (λ found. IfNone found (OpensNot from.now uuid sealed.now × (words.new ≡ words.old))) }
    ensures words { IsLater words.old words.new }
{
    match rewrap(alloc, words, sealed, uuid, from, to) {
        Ok(again) => Ok(Some(row_strings(again))),
        Err((_, error)) => {
            refused(error)?;
            Ok(None)
        }
    }
}

// Want of memory is no refusal.
fn refused(error: ItemError) -> Result<(), AllocError>
    ensures { IfOk result (λ _. error ≢ Memory) }
{
    match error {
        ItemError::Memory => Err(AllocError),
        _ => Ok(()),
    }
}

// An item's strings as those of a row, which they fit.
fn row_strings(sealed: Sealed) -> RowStrings
    requires content { HasDeviceLengths sealed.content }
    requires enc { HasDeviceLengths sealed.enc }
    ensures { sealed_of result ≡ sealed }
{
    match RowStrings::new(sealed.content, sealed.enc) {
        Some(strings) => strings,
        None => unreachable!(),
    }
}

// Ok where the strings are an item under the set.
fn check_opens(
    alloc: Global,
    sealed: &Sealed,
    uuid: Uuid,
    set: &KeySet,
) -> Result<(), (Which, ItemError)>
    ensures ok { IfOk result (λ _. (text : List ℕ) × OpensItem sealed.now uuid set.now text) }
    ensures err { IfErr result (λ why. ItemHasCause sealed.now uuid set.now why.0 why.1) }
{
    open_item(alloc, sealed, uuid, set)?;
    Ok(())
}

// An item that opens under the one set, sealed again under the other.
fn sealed_again(
    alloc: Global,
    words: &mut Words,
    sealed: &Sealed,
    uuid: Uuid,
    from: &KeySet,
    to: &KeySet,
) -> Result<Sealed, AllocError>
    requires { (text : List ℕ) × OpensItem sealed.now uuid from.now text }
    ensures ok { IfOk result (λ again. (text : List ℕ) → OpensItem sealed.now uuid from.now text
        → Rewraps words.old uuid text from.now to.now sealed.now again words.new) }
    ensures words { DrawsOneAtMost words.old words.new }
{
    let digits = key_digits(alloc, sealed, uuid, from)?;
    let content = with_params(alloc, sealed.content.as_str(), &to.params)?;
    let enc = seal_owned_text(alloc, words, digits, uuid, &to.mk, &to.ak, &to.params)?;
    Ok(Sealed {
        content: Text::of_string(content),
        enc: Text::of_string(enc),
    })
}

// The digits of the key of an item that opens.
fn key_digits(
    alloc: Global,
    sealed: &Sealed,
    uuid: Uuid,
    set: &KeySet,
) -> Result<String, AllocError>
    requires { (text : List ℕ) × OpensItem sealed.now uuid set.now text }
    ensures { IfOk result (λ digits. Opens sealed.now.enc uuid set.now.mk set.now.ak (string_bytes digits)) }
{
    match open_text(alloc, sealed.enc.as_str(), uuid, &set.mk, &set.ak) {
        Ok(digits) => Ok(digits),
        Err(error) => {
            refused(error)?;
            unreachable!()
        }
    }
}
