//! Pages of an account's items.

ghost use Rattle.std.specs.Prelude.{◌≡◌, ◌≢◌, ◌↔◌, ◌⊎◌, ◌<◌, ◌≤◌, IfNone, IfOk, IfSome, IsTrue};
ghost use Rattle.sn_account.specs.Lookups.{HasItem};
ghost use Rattle.sn_account.specs.Pages.{IsCandidate, IsGreatest, IsPageOf, most_bytes};
ghost use Rattle.sn_account.specs.Places.{IsAt};
ghost use Rattle.sn_account.specs.Sound.{IsSound};
ghost use Rattle.sn_account.specs.States.{IsUnmarked, state_rows};
ghost use Rattle.sn_rows.specs.declared.server_rows.ItemRow.{ItemRow};
ghost use Rattle.sn_sync.specs.Stamps.{last_stamp};

use crate::page::Page;
use crate::place::Place;
use crate::places::{bounds_above, is_at};
use crate::state::State;
use crate::stored::{given, weight};
use sn_rows::ItemRow;
use sn_string::{MOST_BYTES, OwnedList};
use sn_sync::Item;
use std::alloc::{AllocError, Global};

/// The next items of an account above a stamp, by rising stamp: at most so many, but at least one where there is one.
/// A first page leaves deleted ones out.
pub(crate) fn next_page(
    alloc: Global,
    state: &State,
    number: u64,
    above: u64,
    first: bool,
    limit: u32,
) -> Result<Page, AllocError>
    requires unmarked { IsUnmarked state.now }
    requires sound { IsSound (state_rows state.now) }
    ensures { IfOk result (IsPageOf (state_rows state.now) number above first limit) }
{
    let greatest = greatest(state, number);
    let mut items = OwnedList::new(alloc);
    let mut last = 0;
    let mut bytes = 0;
    'places: for place in state.places.entries.range(bounds_above(number, above)) {
        let Some(row) = candidate_at(state, *place, number, above, first) else {
            continue;
        };
        let sum = bytes + weight(row);
        if is_full(items.len(), limit, sum) {
            return Ok(page_with(items, last, true, greatest));
        }
        items.push(given(alloc, place.uuid, row)?)?;
        last = place.stamp;
        bytes = sum;
    }
    Ok(page_with(items, last, false, greatest))
}

// The greatest stamp of an account's items, 0 where it has none.
fn greatest(state: &State, number: u64) -> u64
    requires unmarked { IsUnmarked state.now }
    requires sound { IsSound (state_rows state.now) }
    ensures greatest { IsGreatest (state_rows state.now) number result }
    ensures bound { result ≤ last_stamp }
{
    let mut places = state.places.entries.range(bounds_above(number, 0));
    'places: while let Some(place) = places.next_back() {
        if let Some(row) = candidate_at(state, *place, number, 0, false) {
            return row.updated();
        }
    }
    0
}

// The item that stands at a place, if it is one that a page may give.
fn candidate_at(
    state: &State,
    place: Place,
    number: u64,
    above: u64,
    first: bool,
) -> Option<&ItemRow>
    requires { IsUnmarked state.now }
    ensures some { IfSome result (λ row. HasItem (state_rows state.now) place.uuid row.now × IsAt place row.now
        × IsCandidate number above first row.now) }
    ensures none { IfNone result ((row : ItemRow) → HasItem (state_rows state.now) place.uuid row → IsAt place row
        → ¬ (IsCandidate number above first row)) }
{
    let row = state.item(place.uuid)?;
    if is_at(place, row) && is_candidate(row, number, above, first) {
        return Some(row);
    }
    None
}

// Whether a page may give the item.
fn is_candidate(row: &ItemRow, number: u64, above: u64, first: bool) -> bool
    ensures { IsTrue result ↔ IsCandidate number above first row.now }
{
    row.account() == number && above < row.updated() && !(first && row.is_deleted())
}

// Whether so many items, with one more so many bytes, leave no room for that one. The first has room in any case.
fn is_full(count: usize, limit: u32, sum: u64) -> bool
    ensures { IsTrue result ↔ ((count ≢ 0) × ((limit ≤ count) ⊎ (most_bytes < sum))) }
{
    count > 0 && (count >= limit as usize || sum > MOST_BYTES)
}

fn page_with(items: OwnedList<Item>, last: u64, more: bool, greatest: u64) -> Page
    requires last { last ≤ last_stamp }
    requires greatest { greatest ≤ last_stamp }
    ensures items { result.items ≡ items }
    ensures last { result.last ≡ last }
    ensures more { result.more ≡ more }
    ensures greatest { result.greatest ≡ greatest }
{
    Page {
        items,
        last,
        more,
        greatest,
    }
}
