//! Stamps and their texts.

ghost use Rattle.std.specs.Prelude.{◌≡◌, ◌<◌, ◌≤◌, ◌≤ℤ◌, pos, ℕ, List, [], ◌∷◌, ◌++◌, string_bytes, IfErr, IfNone, IfOk, IfSome};
ghost use Rattle.jiff_core.specs.Date.{epoch_day};
ghost use Rattle.sn_string.specs.Bounds.{last_stamp};
ghost use Rattle.sn_sync.specs.Stamps.{IsStampText, padded};
ghost use Rattle.sn_sync.specs.StampParts.{BeginsWithDate, IsDayNumber, IsTimeOfDay};

use crate::digits::field;
use jiff_core::civil::Date;
use std::alloc::{AllocError, Global};

const MICROS_OF_DAY: u64 = 86_400_000_000;

/// A text that isn't in the one form that is read.
#[derive(Clone, Copy, Debug, PartialEq, Eq)]
pub struct BadForm;

/// A stamp is a whole number of microseconds since 1970-01-01T00:00:00Z, from 0 to 253402300799999999,
/// the last microsecond of the year 9999.
pub struct Stamp;

impl Stamp {
    /// The text of a stamp, `YYYY-MM-DDTHH:MM:SS.ffffffZ`.
    pub fn text(alloc: Global, stamp: u64) -> Result<String, AllocError>
        requires { stamp ≤ last_stamp }
        ensures { IfOk result (λ text. IsStampText (string_bytes text) stamp) }
    {
        let bytes = Stamp::bytes(stamp);
        Stamp::spelled(&bytes).to_string(alloc)
    }

    /// The bytes of a stamp's text, as a text.
    pub(crate) fn spelled(bytes: &[u8; 27]) -> &str
        requires { (stamp : ℕ) × IsStampText bytes.now stamp }
        ensures { result.now ≡ bytes.now }
    {
        let Ok(text) = str::from_utf8(bytes) else {
            unreachable!();
        };
        text
    }

    /// The bytes of a stamp's text. Takes no memory.
    pub fn bytes(stamp: u64) -> [u8; 27]
        requires { stamp ≤ last_stamp }
        ensures { IsStampText result stamp }
    {
        let mut text = [0; 27];
        text[..11].copy_from_slice(&date_bytes(stamp / MICROS_OF_DAY));
        text[11..].copy_from_slice(&time_bytes(stamp % MICROS_OF_DAY));
        text
    }

    /// The stamp of a text. Takes no memory.
    pub fn read(text: &str) -> Result<u64, BadForm>
        ensures ok { IfOk result (IsStampText text.now) }
        ensures bound { IfOk result (λ stamp. stamp ≤ last_stamp) }
        ensures err { IfErr result (λ e. (stamp : ℕ) → ¬ (IsStampText text.now stamp)) }
    {
        stamp_in(text.as_bytes()).ok_or(BadForm)
    }
}

// The date of a day number.
fn date_of(days: u64) -> Date
    requires { days ≤ 2932896 }
    ensures day { epoch_day result ≡ pos days }
    ensures year { pos 0 ≤ℤ result.year }
{
    let Ok(date) = Date::from_unix_epoch_day(days as i64) else {
        unreachable!();
    };
    date
}

// The date of a day number, and the T behind it.
fn date_bytes(days: u64) -> [u8; 11]
    requires { days ≤ 2932896 }
    ensures { (rest : List ℕ) → BeginsWithDate (result ++ rest) days rest }
{
    let date = date_of(days);
    let year = u64::from(date.year.unsigned_abs());
    let (a, b) = two_digits(year / 100);
    let (c, d) = two_digits(year % 100);
    let (e, f) = two_digits(u64::from(date.month));
    let (g, h) = two_digits(u64::from(date.day));
    [a, b, c, d, b'-', e, f, b'-', g, h, b'T']
}

// The time of day after so many microseconds, and the Z behind it.
fn time_bytes(since: u64) -> [u8; 16]
    requires { since < 86400000000 }
    ensures { IsTimeOfDay result since }
{
    let (seconds, micros) = (since / 1_000_000, since % 1_000_000);
    let (minutes, second) = (seconds / 60, seconds % 60);
    let (a, b) = two_digits(minutes / 60);
    let (c, d) = two_digits(minutes % 60);
    let (e, f) = two_digits(second);
    let (g, h) = two_digits(micros / 10_000);
    let (i, j) = two_digits(micros / 100 % 100);
    let (k, l) = two_digits(micros % 100);
    [a, b, b':', c, d, b':', e, f, b'.', g, h, i, j, k, l, b'Z']
}

fn two_digits(number: u64) -> (u8, u8)
    requires { number < 100 }
    ensures { padded 2 number ≡ result.0 ∷ result.1 ∷ [] }
{
    (b'0' + (number / 10) as u8, b'0' + (number % 10) as u8)
}

fn stamp_in(text: &[u8]) -> Option<u64>
    ensures some { IfSome result (IsStampText text.now) }
    ensures bound { IfSome result (λ stamp. stamp ≤ last_stamp) }
    ensures none { IfNone result ((stamp : ℕ) → ¬ (IsStampText text.now stamp)) }
{
    let (days, time) = date_in(text)?;
    Some(days * MICROS_OF_DAY + time_of_day(time)?)
}

// The day number of the date in front of the text, and what follows it.
fn date_in(text: &[u8]) -> Option<(u64, &[u8])>
    ensures some { IfSome result (λ d. (d.0 ≤ 2932896) × BeginsWithDate text.now d.0 d.1.now) }
    ensures none { IfNone result ((days : ℕ) (rest : List ℕ) → ¬ (BeginsWithDate text.now days rest)) }
{
    let (year, text) = field(text, 4, b'-')?;
    let (month, text) = field(text, 2, b'-')?;
    let (day, text) = field(text, 2, b'T')?;
    Some((day_number(year, month, day)?, text))
}

// The day number of a date, where the calendar has it and it isn't before 1970.
fn day_number(year: u64, month: u64, day: u64) -> Option<u64>
    requires year { year < 10000 }
    requires month { month < 100 }
    requires day { day < 100 }
    ensures some { IfSome result (λ days. (days ≤ 2932896) × IsDayNumber year month day days) }
    ensures none { IfNone result ((days : ℕ) → ¬ (IsDayNumber year month day days)) }
{
    let date = Date::new(year as i16, month as i8, day as i8).ok()?;
    u64::try_from(date.to_unix_epoch_day()).ok()
}

// The microseconds since the beginning of a day.
fn time_of_day(text: &[u8]) -> Option<u64>
    ensures some { IfSome result (λ since. (since < 86400000000) × IsTimeOfDay text.now since) }
    ensures none { IfNone result ((since : ℕ) → ¬ (IsTimeOfDay text.now since)) }
{
    let (hour, text) = field(text, 2, b':')?;
    let (minute, text) = field(text, 2, b':')?;
    let (second, text) = field(text, 2, b'.')?;
    let (micros, text) = field(text, 6, b'Z')?;
    if hour < 24 && minute < 60 && second < 60 && text.is_empty() {
        Some(((hour * 60 + minute) * 60 + second) * 1_000_000 + micros)
    } else {
        None
    }
}
