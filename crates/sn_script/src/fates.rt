// Fates: words that say what is lost, or where a disk stops.
ghost use Rattle.std.specs.Prelude.{◌≡◌, ◌==◌, ◌↔◌, ◌&&◌, ◌||◌, ◌∷◌, [], List, ℕ, codes, map, nat_le, position, IfOk, IsTrue, MatchOption};
ghost use Rattle.sn_script.specs.Grammar.{is_hex_digit, AreLosses, IsCount, IsDiskStop, IsFate, IsImage, IsLoss, IsNamed, IsNumber, IsPlace, IsStop};
ghost use Rattle.sn_script.specs.declared.script.Fate.{Fate};
ghost use Rattle.sn_script.specs.declared.script.Ordinal.{Ordinal};

use crate::script::{Fate, Ordinal};
use crate::words::{is_digit, is_number, ordinal_of};
use sn_string::OwnedList;
use std::alloc::{AllocError, Global};

fn is_hex_digit(c: u8) -> bool
    ensures { result ≡ is_hex_digit c }
{
    is_digit(c) || (97 <= c && c <= 102)
}

// A sign that the disk holds this byte at every unsynced place.
fn is_filled(word: &[u8]) -> bool
    ensures { IsTrue result ↔ ((high : ℕ) × (low : ℕ) × (word.now ≡ 120 ∷ high ∷ low ∷ []) × IsTrue (is_hex_digit high) × IsTrue (is_hex_digit low)) }
{
    match word {
        [b'x', high, low] => is_hex_digit(*high) && is_hex_digit(*low),
        _ => false,
    }
}

fn is_image(word: &[u8]) -> bool
    ensures { IsTrue result ↔ IsImage word.now }
{
    word == b"old".as_slice() || word == b"new".as_slice() || is_filled(word)
}

fn colon(word: &[u8]) -> Option<usize>
    ensures { result ≡ position (λ c. c == 58) word.now }
{
    word.iter().position(|&c| c == b':')
}

fn are_number_and_image(number: &[u8], image: &[u8]) -> bool
    ensures { IsTrue result ↔ (IsNumber number.now × IsImage image.now) }
{
    is_number(number) && is_image(image)
}

fn is_place(word: &[u8]) -> bool
    ensures { IsTrue result ↔ IsPlace word.now }
{
    match colon(word) {
        Some(colon) => are_number_and_image(&word[..colon], &word[colon + 1..]),
        None => false,
    }
}

fn is_stop(word: &[u8]) -> bool
    ensures { IsTrue result ↔ IsStop word.now }
{
    match word {
        [b'=', place @ ..] => is_place(place),
        _ => false,
    }
}

fn is_stop_of(name: &[u8], word: &[u8]) -> bool
    ensures { IsTrue result ↔ IsNamed name.now IsStop word.now }
{
    match word.strip_prefix(name) {
        Some(rest) => is_stop(rest),
        None => false,
    }
}

fn is_disk_stop(word: &[u8]) -> bool
    ensures { IsTrue result ↔ IsDiskStop word.now }
{
    is_stop_of(b"stop-device", word) || is_stop_of(b"stop-server", word)
}

// Which one is said behind a fate's name. Nothing says the first.
fn count_of(rest: &str) -> Option<Ordinal>
    ensures { MatchOption result ((which : Ordinal) → ¬ (IsCount rest.now which)) (IsCount rest.now) }
{
    if rest.is_empty() {
        return Some(Ordinal::Nth(1));
    }
    match rest.strip_prefix('=') {
        Some(number) => ordinal_of(number),
        None => None,
    }
}

fn count_behind(name: &str, word: &str) -> Option<Ordinal>
    ensures { MatchOption result ((which : Ordinal) → ¬ (IsNamed name.now (λ rest. IsCount rest which) word.now))
        (λ which. IsNamed name.now (λ rest. IsCount rest which) word.now) }
{
    match word.strip_prefix(name) {
        Some(rest) => count_of(rest),
        None => None,
    }
}

/// The loss that the word says, where it says one.
pub fn loss_of(word: &str) -> Option<Fate>
    ensures { MatchOption result ((loss : Fate) → ¬ (IsLoss word.now loss)) (IsLoss word.now) }
{
    if let Some(which) = count_behind("drop-request", word) {
        return Some(Fate::DropRequest(which));
    }
    match count_behind("drop-reply", word) {
        Some(which) => Some(Fate::DropReply(which)),
        None => None,
    }
}

fn is_loss(word: &str) -> bool
    ensures { IsTrue result ↔ ((loss : Fate) × IsLoss word.now loss) }
{
    loss_of(word).is_some()
}

/// Whether the word has the form of a fate. No text begins with one.
pub fn is_fate(word: &str) -> bool
    ensures { IsTrue result ↔ IsFate word.now }
{
    is_loss(word) || is_disk_stop(word.as_bytes())
}

/// The losses that the words say, where each says one.
pub fn losses(alloc: Global, words: &[&str]) -> Result<Option<OwnedList<Fate>>, AllocError>
    ensures { IfOk result (λ found. MatchOption found
        ((fates : List Fate) → ¬ (AreLosses (map (λ w. w.now) words.now) fates)) (AreLosses (map (λ w. w.now) words.now))) }
{
    let mut fates = OwnedList::new(alloc);
    for word in words {
        let Some(fate) = loss_of(word) else {
            return Ok(None);
        };
        fates.push(fate)?;
    }
    Ok(Some(fates))
}
