// The forms of single words.
ghost use Rattle.std.specs.Prelude.{◌≡◌, ◌<◌, ◌≤◌, ◌^◌, ◌↔◌, ◌&&◌, ◌||◌, ℕ, length, nat_le, slice_index, IfNone, IfSome, IsTrue, MatchOption};
ghost use Rattle.std.specs.Fmt.{decimal};
ghost use Rattle.std.specs.List.{list_all};
ghost use Rattle.sn_script.specs.Grammar.{is_digit, is_letter_or_digit, IsLabel, IsName, IsNumber, IsOrdinal, IsShort};
ghost use Rattle.sn_script.specs.declared.script.Ordinal.{Ordinal};

use crate::script::Ordinal;

pub fn is_digit(c: u8) -> bool
    ensures { result ≡ is_digit c }
{
    48 <= c && c <= 57
}

fn is_letter_or_digit(c: u8) -> bool
    ensures { result ≡ is_letter_or_digit c }
{
    is_digit(c) || (65 <= c && c <= 90) || (97 <= c && c <= 122)
}

fn all_digits(word: &[u8]) -> bool
    ensures { result ≡ list_all is_digit word.now }
{
    word.iter().all(|&c| is_digit(c))
}

fn all_letters_or_digits(word: &[u8]) -> bool
    ensures { result ≡ list_all is_letter_or_digit word.now }
{
    word.iter().all(|&c| is_letter_or_digit(c))
}

/// Whether the word is a device's name: 1 to 8 letters or digits.
pub fn is_name(word: &str) -> bool
    ensures { IsTrue result ↔ IsName word.now }
{
    1 <= word.len() && word.len() <= 8 && all_letters_or_digits(word.as_bytes())
}

/// Whether the word has 1 to 254 bytes.
pub fn is_short(word: &str) -> bool
    ensures { IsTrue result ↔ IsShort word.now }
{
    1 <= word.len() && word.len() <= 254
}

fn begins_with_zero(word: &[u8]) -> bool
    ensures { IsTrue result ↔ (slice_index word.now 0 ≡ 48) }
{
    word.first().is_some_and(|&digit| digit == 48)
}

/// Whether the word is a decimal number, however long, without sign or leading zero.
pub fn is_number(word: &[u8]) -> bool
    ensures { IsTrue result ↔ IsNumber word.now }
{
    1 <= word.len() && all_digits(word) && (word.len() == 1 || !begins_with_zero(word))
}

/// The decimal number that the word spells, without sign or leading zero.
pub fn number(word: &str) -> Option<u64>
    ensures some { IfSome result (λ n. word.now ≡ decimal n) }
    ensures none { IfNone result ((n : ℕ) → n < 2 ^ 64 → ¬ (word.now ≡ decimal n)) }
{
    if is_number(word.as_bytes()) {
        word.parse().ok()
    } else {
        None
    }
}

/// Which one the word says: a decimal number, however long, without sign or leading zero.
pub fn ordinal_of(word: &str) -> Option<Ordinal>
    ensures { MatchOption result ((which : Ordinal) → ¬ (IsOrdinal word.now which)) (IsOrdinal word.now) }
{
    if let Some(number) = number(word) {
        return Some(Ordinal::Nth(number));
    }
    if is_number(word.as_bytes()) {
        Some(Ordinal::Beyond)
    } else {
        None
    }
}

/// Which label the word is.
pub fn label_of(word: &str) -> Option<Ordinal>
    ensures { MatchOption result ((which : Ordinal) → ¬ (IsLabel word.now which)) (IsLabel word.now) }
{
    match word.strip_prefix('#') {
        Some(number) => ordinal_of(number),
        None => None,
    }
}
