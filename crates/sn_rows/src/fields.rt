//! Reading the fields of columns, from the left.

ghost use Rattle.std.specs.Prelude.{◌≡◌, ◌≤◌, ◌+◌, ◌==◌, ◌&&◌, length, drop, slice_index_or, false, IfOk, IsTrue};
ghost use Rattle.std.specs.Option.{ForSome};
ghost use Rattle.std.specs.Int.{w32, w64};
ghost use Rattle.sn_rows.specs.Bounds.{is_device_string, is_text_of, is_token, is_type_or_empty, last_stamp};
ghost use Rattle.sn_rows.specs.Cells.{is_undeleted};
ghost use Rattle.sn_rows.specs.Columns.{body_of};
ghost use Rattle.sn_rows.specs.Reading.{Gives, spot, bytes_at, number_at, byte_at, stamp_at, cost_at, text_at, flag_at, slot_at, base_at, body_at, type_at};

use crate::at::At;
use crate::body::{RowBody, RowStrings};
use crate::error::RowError;
use crate::key::Slot;
use crate::texts::{device_text_within, text_within, token_within};
use sn_string::{LAST_STAMP, Text};
use std::alloc::Global;

/// So many bytes.
#[tactic(auto, unfolding(crate::specs::Reading::bytes_at))]
pub(crate) fn bytes_of<'a>(at: At<'a>, count: usize) -> Result<(&'a [u8], At<'a>), RowError>
    ensures gives { Gives (λ x. (x.0.now, spot x.1.place x.1.rest.now)) result (bytes_at count (spot at.entry.place at.entry.rest.now)) }
    ensures parts { IfOk result (λ x. length x.0.now + length x.1.rest.now ≡ length at.entry.rest.now) }
{
    if at.rest.len() < count {
        return Err(RowError::Short { place: at.place });
    }
    let (front, rest) = at.rest.split_at(count);
    Ok((
        front,
        At {
            place: at.place + count,
            rest,
        },
    ))
}

/// A number of eight bytes.
#[tactic(auto, unfolding(crate::specs::Reading::number_at))]
pub(crate) fn u64_of<'a>(at: At<'a>) -> Result<(u64, At<'a>), RowError>
    ensures gives { Gives (λ x. (x.0, spot x.1.place x.1.rest.now)) result (number_at w64 (spot at.entry.place at.entry.rest.now)) }
    ensures eight { IfOk result (λ x. x.1.rest.now ≡ drop 8 at.entry.rest.now) }
{
    let Some((front, rest)) = at.rest.split_first_chunk::<8>() else {
        return Err(RowError::Short { place: at.place });
    };
    Ok((
        u64::from_be_bytes(*front),
        At {
            place: at.place + 8,
            rest,
        },
    ))
}

/// A number of four bytes.
#[tactic(auto, unfolding(crate::specs::Reading::number_at))]
pub(crate) fn u32_of<'a>(at: At<'a>) -> Result<(u32, At<'a>), RowError>
    ensures gives { Gives (λ x. (x.0, spot x.1.place x.1.rest.now)) result (number_at w32 (spot at.entry.place at.entry.rest.now)) }
    ensures four { IfOk result (λ x. length x.1.rest.now + 4 ≡ length at.entry.rest.now) }
{
    let Some((front, rest)) = at.rest.split_first_chunk::<4>() else {
        return Err(RowError::Short { place: at.place });
    };
    Ok((
        u32::from_be_bytes(*front),
        At {
            place: at.place + 4,
            rest,
        },
    ))
}

/// One byte.
#[tactic(auto, unfolding(crate::specs::Reading::byte_at))]
pub(crate) fn byte_of<'a>(at: At<'a>) -> Result<(u8, At<'a>), RowError>
    ensures gives { Gives (λ x. (x.0, spot x.1.place x.1.rest.now)) result (byte_at (spot at.entry.place at.entry.rest.now)) }
    ensures one { IfOk result (λ x. length x.1.rest.now + 1 ≡ length at.entry.rest.now) }
    ensures first { IfOk result (λ x. x.0 ≡ slice_index_or at.entry.rest.now 0 1) }
{
    let Some((first, rest)) = at.rest.split_first() else {
        return Err(RowError::Short { place: at.place });
    };
    Ok((
        *first,
        At {
            place: at.place + 1,
            rest,
        },
    ))
}

/// An array of bytes.
#[tactic(auto, unfolding(crate::specs::Reading::bytes_at))]
pub(crate) fn array_of<'a, const N: usize>(at: At<'a>) -> Result<([u8; N], At<'a>), RowError>
    ensures { Gives (λ x. (x.0, spot x.1.place x.1.rest.now)) result (bytes_at N (spot at.entry.place at.entry.rest.now)) }
{
    let Some((front, rest)) = at.rest.split_first_chunk::<N>() else {
        return Err(RowError::Short { place: at.place });
    };
    Ok((
        *front,
        At {
            place: at.place + N,
            rest,
        },
    ))
}

/// A stamp.
#[tactic(auto, unfolding(crate::specs::Reading::stamp_at))]
pub(crate) fn stamp_of<'a>(at: At<'a>) -> Result<(u64, At<'a>), RowError>
    ensures gives { Gives (λ x. (x.0, spot x.1.place x.1.rest.now)) result (stamp_at (spot at.entry.place at.entry.rest.now)) }
    ensures fits { IfOk result (λ x. x.0 ≤ last_stamp) }
    ensures eight { IfOk result (λ x. x.1.rest.now ≡ drop 8 at.entry.rest.now) }
{
    let (stamp, next) = u64_of(at)?;
    if stamp > LAST_STAMP {
        return Err(RowError::Range { place: at.place });
    }
    Ok((stamp, next))
}

/// A cost.
#[tactic(auto, unfolding(crate::specs::Reading::cost_at))]
pub(crate) fn cost_of<'a>(at: At<'a>) -> Result<(u32, At<'a>), RowError>
    ensures gives { Gives (λ x. (x.0, spot x.1.place x.1.rest.now)) result (cost_at (spot at.entry.place at.entry.rest.now)) }
    ensures fits { IfOk result (λ x. 1 ≤ x.0) }
{
    let (cost, next) = u32_of(at)?;
    if cost == 0 {
        return Err(RowError::Range { place: at.place });
    }
    Ok((cost, next))
}

/// A text of so many bytes.
#[tactic(auto, unfolding(crate::specs::Reading::text_at))]
pub(crate) fn str_of<'a>(
    at: At<'a>,
    least: usize,
    most: usize,
) -> Result<(&'a str, At<'a>), RowError>
    ensures gives { Gives (λ x. (x.0.now, spot x.1.place x.1.rest.now)) result (text_at (is_text_of least most) (spot at.entry.place at.entry.rest.now)) }
    ensures fits { IfOk result (λ x. IsTrue (is_text_of least most x.0.now)) }
{
    let (count, at) = u32_of(at)?;
    let place = at.place;
    let (bytes, at) = bytes_of(at, count as usize)?;
    match text_within(bytes, least, most) {
        Some(text) => Ok((text, at)),
        None => Err(RowError::Range { place }),
    }
}

/// A flag.
#[tactic(auto, unfolding(crate::specs::Reading::flag_at))]
pub(crate) fn flag_of<'a>(at: At<'a>) -> Result<(bool, At<'a>), RowError>
    ensures gives { Gives (λ x. (x.0, spot x.1.place x.1.rest.now)) result (flag_at (spot at.entry.place at.entry.rest.now)) }
    ensures no { IfOk result (λ x. x.0 ≡ false → slice_index_or at.entry.rest.now 0 1 ≡ 0) }
{
    let (byte, next) = byte_of(at)?;
    match byte {
        0 => Ok((false, next)),
        1 => Ok((true, next)),
        _ => Err(RowError::Range { place: at.place }),
    }
}

/// Which of the key sets.
#[tactic(auto, unfolding(crate::specs::Reading::slot_at))]
pub(crate) fn slot_of<'a>(at: At<'a>) -> Result<(Slot, At<'a>), RowError>
    ensures { Gives (λ x. (x.0, spot x.1.place x.1.rest.now)) result (slot_at (spot at.entry.place at.entry.rest.now)) }
{
    let (byte, next) = byte_of(at)?;
    match byte {
        0 => Ok((Slot::Present, next)),
        1 => Ok((Slot::Older, next)),
        2 => Ok((Slot::Asked, next)),
        _ => Err(RowError::Range { place: at.place }),
    }
}

/// The stamp of a base, where there is one.
#[tactic(auto, unfolding(crate::specs::Reading::base_at))]
pub(crate) fn base_of<'a>(at: At<'a>) -> Result<(Option<u64>, At<'a>), RowError>
    ensures gives { Gives (λ x. (x.0, spot x.1.place x.1.rest.now)) result (base_at (spot at.entry.place at.entry.rest.now)) }
    ensures fits { IfOk result (λ x. ForSome x.0 (λ stamp. stamp ≤ last_stamp)) }
{
    let (has_base, at) = flag_of(at)?;
    let (stamp, next) = stamp_of(at)?;
    if has_base {
        return Ok((Some(stamp), next));
    }
    if stamp != 0 {
        return Err(RowError::Range { place: at.place });
    }
    Ok((None, next))
}

/// A text of so many bytes, owned.
pub(crate) fn text_of<'a>(
    alloc: Global,
    at: At<'a>,
    least: usize,
    most: usize,
) -> Result<(Text, At<'a>), RowError>
    ensures gives { Gives (λ x. (x.0, spot x.1.place x.1.rest.now)) result (text_at (is_text_of least most) (spot at.entry.place at.entry.rest.now)) }
    ensures fits { IfOk result (λ x. IsTrue (is_text_of least most x.0)) }
{
    match str_of(at, least, most) {
        Ok((text, next)) => Ok((Text::of(alloc, text)?, next)),
        Err(error) => Err(error),
    }
}

/// A session token.
#[tactic(auto, unfolding(crate::specs::Reading::text_at))]
pub(crate) fn token_of<'a>(alloc: Global, at: At<'a>) -> Result<(Text, At<'a>), RowError>
    ensures gives { Gives (λ x. (x.0, spot x.1.place x.1.rest.now)) result (text_at is_token (spot at.entry.place at.entry.rest.now)) }
    ensures fits { IfOk result (λ x. IsTrue (is_token x.0)) }
{
    let (count, at) = u32_of(at)?;
    let place = at.place;
    let (bytes, at) = bytes_of(at, count as usize)?;
    match token_within(bytes) {
        Some(text) => Ok((Text::of(alloc, text)?, at)),
        None => Err(RowError::Range { place }),
    }
}

/// A string of an item on a device.
#[tactic(auto, unfolding(crate::specs::Reading::text_at))]
pub(crate) fn device_text_of<'a>(alloc: Global, at: At<'a>) -> Result<(Text, At<'a>), RowError>
    ensures gives { Gives (λ x. (x.0, spot x.1.place x.1.rest.now)) result (text_at is_device_string (spot at.entry.place at.entry.rest.now)) }
    ensures fits { IfOk result (λ x. IsTrue (is_device_string x.0)) }
{
    let (count, at) = u32_of(at)?;
    let place = at.place;
    let (bytes, at) = bytes_of(at, count as usize)?;
    match device_text_within(bytes) {
        Some(text) => Ok((Text::of(alloc, text)?, at)),
        None => Err(RowError::Range { place }),
    }
}

/// The type of an item on the server.
#[tactic(auto, unfolding(crate::specs::Reading::type_at))]
pub(crate) fn type_of<'a>(at: At<'a>) -> Result<(&'a str, At<'a>), RowError>
    ensures gives { Gives (λ x. (x.0.now, spot x.1.place x.1.rest.now)) result (type_at (spot at.entry.place at.entry.rest.now)) }
    ensures fits { IfOk result (λ x. IsTrue (is_type_or_empty x.0.now)) }
    ensures stands { IfOk result (λ x. ((length x.0.now == 0) && is_undeleted x.1.rest.now) ≡ false) }
{
    let (count, at) = u32_of(at)?;
    let place = at.place;
    let (bytes, at) = bytes_of(at, count as usize)?;
    let Some(text) = text_within(bytes, 0, 255) else {
        return Err(RowError::Range { place });
    };
    if bytes.is_empty() && is_undeleted(at.rest) {
        return Err(RowError::Range { place });
    }
    Ok((text, at))
}

// Whether the flag behind two stamps says that the item is not deleted.
fn is_undeleted(rest: &[u8]) -> bool
    ensures { result ≡ is_undeleted rest.now }
{
    16 < rest.len() && rest[16] == 0
}

/// A body.
#[tactic(auto, unfolding(crate::specs::Reading::body_at))]
pub(crate) fn body_of<'a>(alloc: Global, at: At<'a>) -> Result<(Option<RowBody>, At<'a>), RowError>
    ensures { Gives (λ x. (body_of x.0, spot x.1.place x.1.rest.now)) result (body_at (spot at.entry.place at.entry.rest.now)) }
{
    let (byte, next) = byte_of(at)?;
    match byte {
        0 => Ok((None, next)),
        1 => Ok((Some(RowBody::Deleted), next)),
        2 => {
            let (content, next) = device_text_of(alloc, next)?;
            let (enc, next) = device_text_of(alloc, next)?;
            Ok((Some(RowBody::Sealed(RowStrings { content, enc })), next))
        }
        _ => Err(RowError::Range { place: at.place }),
    }
}
