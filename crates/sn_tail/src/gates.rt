// The gates of a store, one behind the other.
ghost use Rattle.std.specs.Prelude.{◌≡◌, ◌⊎◌, ◌++◌, [], List, ℕ, drop, IfSome, IfNone};
ghost use Rattle.sn_journal.specs.Image.{batch, IsBounded, IsClosed};
ghost use Rattle.sn_journal.specs.Reading.{IsBroken, IsWhole};
ghost use Rattle.sn_journal.specs.declared.owner.Owner.{Owner};
ghost use Rattle.sn_rows.specs.declared.change.Change.{Change};
ghost use Rattle.sn_table.specs.Batches.{IsStore};
ghost use Rattle.sn_tail.specs.Places.{place_behind};
ghost use Rattle.sn_tail.specs.Tails.{IsEnd};

use sn_journal::MOST_PAYLOAD;

/// The place of the first gate of a store: where no batches end.
pub fn first_place() -> u64
    ensures { (owner : Owner) → result ≡ place_behind owner [] }
{
    16
}

/// The place of the gate behind all batches of a store, by the place of one of its gates. It goes from gate to gate, and reads
/// no payload.
pub fn place_of_end(bytes: &[u8], place: u64) -> u64
    ensures end { (owner : Owner) (before later : List (List Change)) → IsStore owner bytes.now (before ++ later) → place ≡ place_behind owner before
        → result ≡ place_behind owner (before ++ later) }
    ensures read { IsEnd bytes.now place result }
{
    let mut rest = from_place(bytes, place);
    let mut gate = place;
    'batches: while let Some((payload, after)) = next_batch(rest) {
        gate += 5 + payload.len() as u64;
        rest = after;
    }
    gate
}

// The bytes from a place on.
pub(crate) fn from_place(bytes: &[u8], place: u64) -> &[u8]
    ensures { result.now ≡ drop place bytes.now }
{
    match bytes.get(place as usize..) {
        Some(rest) => rest,
        None => &[],
    }
}

// The payload of the batch that stands first, where a whole one stands behind an open gate, and the bytes behind it.
pub(crate) fn next_batch(bytes: &[u8]) -> Option<(&[u8], &[u8])>
    ensures some { IfSome result (λ found. (bytes.now ≡ batch found.0.now ++ found.1.now) × IsBounded found.0.now) }
    ensures none { IfNone result (IsClosed bytes.now ⊎ IsBroken bytes.now) }
{
    let size = whole_batch(bytes)?;
    Some((&bytes[5..5 + size], &bytes[5 + size..]))
}

// The size of the payload behind an open gate, where the batch is whole.
fn whole_batch(bytes: &[u8]) -> Option<usize>
    ensures some { IfSome result (λ size. IsWhole bytes.now size) }
    ensures none { IfNone result (IsClosed bytes.now ⊎ IsBroken bytes.now) }
{
    let [1, a, b, c, d, after @ ..] = bytes else {
        return None;
    };
    let size = u32::from_be_bytes([*a, *b, *c, *d]) as usize;
    if size > MOST_PAYLOAD || size > after.len() {
        return None;
    }
    Some(size)
}
