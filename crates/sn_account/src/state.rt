//! What a server knows, in memory.

ghost use Rattle.std.specs.Prelude.{All};
ghost use Rattle.sn_account.specs.Names.{ListsChange, ListsRows, lists_changes-prop, lists_rows-prop};
ghost use Rattle.sn_account.specs.Places.{PlacesChange, PlacesRows, places_changes-prop, places_rows-prop};
ghost use Rattle.sn_account.specs.Room.{all_fit-prop};
ghost use Rattle.sn_row_map.specs.RowMaps.{FitsIn};

use crate::names::Names;
use crate::places::Places;
use sn_row_map::RowMap;
use sn_rows::Change;
use sn_string::OwnedList;
use std::alloc::{AllocError, Global};

/// The rows of a server. Changes may be marked: they count already, and are taken back or kept without
/// taking memory.
#[derive(Drop)]
pub struct State {
    pub(crate) alloc: Global,
    pub(crate) rows: RowMap,
    pub(crate) marked: OwnedList<Change>,
    // The accounts of the rows and of the marked changes, by their identifiers.
    pub(crate) names: Names,
    // The places of the items of both.
    pub(crate) places: Places,
    pub(crate) ghost fits: { All (FitsIn rows) marked } by { all_fit-prop rows marked },
    pub(crate) ghost listed: { ListsRows names rows } by { lists_rows-prop names rows },
    pub(crate) ghost added: { All (ListsChange names) marked } by { lists_changes-prop names marked },
    pub(crate) ghost placed: { PlacesRows places rows } by { places_rows-prop places rows },
    pub(crate) ghost to_place: { All (PlacesChange places) marked } by { places_changes-prop places marked },
}

impl State {
    ghost use Rattle.std.specs.Prelude.{◌≡◌, IfOk};
    ghost use Rattle.sn_account.specs.States.{IsUnmarked, state_rows};
    ghost use Rattle.sn_row_map.specs.RowMaps.{row_in};
    ghost use Rattle.sn_rows.specs.declared.key.Key.{Key};

    /// The state of the rows of a map, which it keeps as they are.
    pub fn of_map(alloc: Global, rows: RowMap) -> Result<State, AllocError>
        ensures rows { IfOk result (λ state. (key : Key) → state_rows state key ≡ row_in rows key) }
        ensures unmarked { IfOk result IsUnmarked }
    {
        let names = Names::of_rows(alloc, &rows)?;
        let places = Places::of_rows(alloc, &rows)?;
        Ok(State {
            alloc,
            rows,
            marked: OwnedList::new(alloc),
            names,
            places,
        })
    }
}
