//! The bounds of a sync's items.

ghost use Rattle.std.specs.Prelude.{◌≡◌, [], IfNone, IfSome};
ghost use Rattle.sn_account.specs.Syncs.{AreShort, IsFirstLong, IsFirstLongIn, NoneLong, strings_in};

use sn_string::MOST_STRING;
use sn_sync::{Body, Item};
use uuid::Uuid;

/// The most items of a sync.
pub(crate) const MOST_ITEMS: usize = 500;

/// The first string that is too long, by its item's uuid and its number of bytes.
pub(crate) fn first_long(items: &[Item]) -> Option<(Uuid, u64)>
    ensures some { IfSome result (λ long. IsFirstLong items.now long.0 long.1) }
    ensures none { IfNone result (NoneLong items.now) }
{
    'items: for item in items {
        if let Some(size) = long_in(&item.body) {
            return Some((item.uuid, size));
        }
    }
    None
}

// The number of bytes of the first string that is too long.
fn long_in(body: &Body) -> Option<u64>
    ensures some { IfSome result (λ size. IsFirstLongIn (strings_in body.now) size) }
    ensures none { IfNone result (AreShort (strings_in body.now)) }
{
    let Body::Strings { content, enc } = body else {
        return None;
    };
    if content.len() > MOST_STRING {
        return Some(content.len() as u64);
    }
    if enc.len() > MOST_STRING {
        return Some(enc.len() as u64);
    }
    None
}
