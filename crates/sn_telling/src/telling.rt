//! The moves of a call, and of a request that comes late or again.

ghost use Rattle.std.specs.Prelude.{◌≡◌, ◌++◌, ◌∷◌, [], ◌≤◌, IfOk, List, None, OnOk, Option, drop, false, length, take};
ghost use Rattle.std.specs.Option.{option_copied};
ghost use Rattle.sn_laws.specs.declared.moves.Move.{Move};
ghost use Rattle.sn_row_map.specs.RowMaps.{row_in};
ghost use Rattle.sn_string.specs.declared.params.KeySet.{KeySet};
ghost use Rattle.sn_telling.specs.Turns.{GoesOn, SaysTurn};
ghost use Rattle.sn_telling.specs.Walking.{IsReadAs, SaysBatches, SaysGained, SaysWalk, asks_sync, front, requests_in, rest, rows_behind_all};
ghost use Rattle.sn_telling.specs.declared.known.Known.{Known};

use crate::beginning::begun_in;
use crate::calling::Calling;
use crate::committing::committed;
use crate::gaining::gained;
use crate::known::Known;
use crate::reading::request_read;
use crate::steps::push_all;
use sn_laws::Move;
use sn_order::{comes_first, is_sync, kind_of};
use sn_recorder::Exchanged;
use sn_row_map::RowMap;
use sn_rows::Change;
use sn_string::{KeySet, OwnedList, Text};
use std::alloc::{AllocError, Global};
use std::mem;

/// What is told of a call: its moves, and its requests with the set that each would begin, in order.
#[derive(Drop)]
pub struct Told {
    pub moves: OwnedList<Move>,
    pub requests: OwnedList<OwnedList<u8>>,
    pub begun: OwnedList<Option<KeySet>>,
}

// Where a walk stands: what is told so far, whether the last request asked for a sync, its answer, and the batches that are left.
#[derive(Drop)]
pub(crate) struct Walk {
    pub(crate) told: Told,
    pub(crate) heard: bool,
    pub(crate) answer: Option<OwnedList<u8>>,
    pub(crate) left: Vec<OwnedList<Change>>,
}

/// The moves of a call of the device of this name, by the device's batches and the exchanges. The rows of both ends, which
/// are those before the call, become those behind it. On an error they are in between.
pub fn call_moves(
    alloc: Global,
    server: &mut RowMap,
    device: &mut RowMap,
    name: &Text,
    calling: &Calling,
    batches: OwnedList<OwnedList<Change>>,
    exchanged: OwnedList<Exchanged>,
) -> Result<Told, AllocError>
    ensures walk { IfOk result (λ told. SaysWalk calling.now name.now (row_in server.old) (row_in device.old) false None batches exchanged
        told.moves told.begun (row_in server.new) (row_in device.new)) }
    ensures requests { IfOk result (λ told. told.requests ≡ requests_in exchanged) }
{
    let mut walk = begun_walk(alloc, batches);
    'exchanges: for exchange in exchanged.into_vec() {
        push_exchange(alloc, &mut walk, server, device, name, calling, exchange)?;
    }
    ended_walk(alloc, walk, server, device, name, calling)
}

/// The moves of a request of the device of this name that comes late or again, by the batches that the server's store gained:
/// `begins` is the set that it would begin. The server's rows become those behind the batches.
pub fn late_moves(
    alloc: Global,
    server: &mut RowMap,
    device: &RowMap,
    name: &Text,
    request: &[u8],
    begins: Option<&KeySet>,
    batches: OwnedList<OwnedList<Change>>,
) -> Result<OwnedList<Move>, AllocError>
    ensures moves { IfOk result (λ moves. (found : Option Known) × IsReadAs request.now found
        × SaysGained (row_in server.old) (row_in device.now) name.now (option_copied begins.entry) found batches moves) }
    ensures rows { OnOk result (row_in server.new ≡ rows_behind_all (row_in server.old) batches) }
{
    let found = request_read(alloc, request)?;
    gained(alloc, server, device, name, begins, &found, batches)
}

// ---- a walk

// Before the first exchange.
fn begun_walk(alloc: Global, batches: OwnedList<OwnedList<Change>>) -> Walk
    ensures told { result.told ≡ record { moves = []; requests = []; begun = [] } }
    ensures heard { result.heard ≡ false }
    ensures answer { result.answer ≡ None }
    ensures left { result.left.items ≡ batches }
{
    Walk {
        told: Told {
            moves: OwnedList::new(alloc),
            requests: OwnedList::new(alloc),
            begun: OwnedList::new(alloc),
        },
        heard: false,
        answer: None,
        left: batches.into_vec(),
    }
}

// Behind the last: the batches that are left come after it.
fn ended_walk(
    alloc: Global,
    walk: Walk,
    server: &RowMap,
    device: &mut RowMap,
    name: &Text,
    calling: &Calling,
) -> Result<Told, AllocError>
    ensures said { IfOk result (λ told. (said : List Move) × (told.moves ≡ walk.told.moves ++ said)
        × SaysBatches calling.now (row_in server.now) (row_in device.old) name.now walk.answer walk.left.items said
        × (told.begun ≡ walk.told.begun) × (row_in device.new ≡ rows_behind_all (row_in device.old) walk.left.items)) }
    ensures requests { IfOk result (λ told. told.requests ≡ walk.told.requests) }
{
    let Walk {
        mut told,
        answer,
        left,
        ..
    } = walk;
    let said = committed(alloc, server, device, name, calling, &answer, left)?;
    push_all(&mut told.moves, said)?;
    Ok(told)
}

// Goes on by an exchange.
fn push_exchange(
    alloc: Global,
    walk: &mut Walk,
    server: &mut RowMap,
    device: &mut RowMap,
    name: &Text,
    calling: &Calling,
    exchange: Exchanged,
) -> Result<(), AllocError>
    ensures { OnOk result (GoesOn calling.now name.now (row_in server.old) (row_in device.old) walk.old exchange (row_in server.new) (row_in device.new) walk.new) }
{
    let request = request_read(alloc, exchange.request.as_slice())?;
    push_turn(
        alloc, walk, server, device, name, calling, &request, exchange,
    )
}

// The same, by what is known of its request.
fn push_turn(
    alloc: Global,
    walk: &mut Walk,
    server: &mut RowMap,
    device: &mut RowMap,
    name: &Text,
    calling: &Calling,
    request: &Option<Known>,
    exchange: Exchanged,
) -> Result<(), AllocError>
    ensures { IsReadAs exchange.request request.now
        → OnOk result (GoesOn calling.now name.now (row_in server.old) (row_in device.old) walk.old exchange (row_in server.new) (row_in device.new) walk.new) }
{
    let syncs = asks_sync(request);
    let first = take_front(walk.heard, syncs, &mut walk.left)?;
    let Exchanged {
        request: bytes,
        answer,
        batches,
    } = exchange;
    push_said(
        alloc,
        &mut walk.told,
        server,
        device,
        name,
        calling,
        &walk.answer,
        first,
        request,
        batches,
    )?;
    walk.told.requests.push(bytes)?;
    walk.heard = syncs;
    walk.answer = answer;
    Ok(())
}

// Adds what these batches of the device say and then those by which the server answers, and the set that the request would begin.
fn push_said(
    alloc: Global,
    told: &mut Told,
    server: &mut RowMap,
    device: &mut RowMap,
    name: &Text,
    calling: &Calling,
    answer: &Option<OwnedList<u8>>,
    first: Vec<OwnedList<Change>>,
    request: &Option<Known>,
    batches: OwnedList<OwnedList<Change>>,
) -> Result<(), AllocError>
    ensures turn { OnOk result ((said : List Move) × (begins : Option KeySet) × (told.new.moves ≡ told.old.moves ++ said)
        × (told.new.begun ≡ told.old.begun ++ begins ∷ [])
        × SaysTurn calling.now (row_in server.old) (row_in device.old) name.now answer.now first.items request.now batches said begins
        (row_in server.new) (row_in device.new)) }
    ensures requests { OnOk result (told.new.requests ≡ told.old.requests) }
{
    let said = committed(alloc, server, device, name, calling, answer, first)?;
    push_all(&mut told.moves, said)?;
    let begins = begun_in(alloc, calling, device, request)?;
    let said = gained(
        alloc,
        server,
        device,
        name,
        begins.as_ref(),
        request,
        batches,
    )?;
    push_all(&mut told.moves, said)?;
    told.begun.push(begins)
}

fn asks_sync(request: &Option<Known>) -> bool
    ensures { result ≡ asks_sync request.now }
{
    match request {
        Some(Known::Sync) => true,
        Some(Known::Other(request)) => is_sync(request),
        None => false,
    }
}

// ---- the batches before it

// Takes those that come before the next request, and leaves those that come after it.
fn take_front(
    heard: bool,
    syncs: bool,
    left: &mut Vec<OwnedList<Change>>,
) -> Result<Vec<OwnedList<Change>>, AllocError>
    ensures front { IfOk result (λ first. first.items ≡ front heard syncs left.old.items) }
    ensures rest { OnOk result (left.new.items ≡ rest heard syncs left.old.items) }
{
    let count = front_len(heard, syncs, left.as_slice());
    let behind = left.split_off(count)?;
    Ok(mem::replace(left, behind))
}

// How many come before it.
fn front_len(heard: bool, syncs: bool, batches: &[OwnedList<Change>]) -> usize
    ensures within { result ≤ length batches.now }
    ensures front { front heard syncs batches.now ≡ take result batches.now }
    ensures rest { rest heard syncs batches.now ≡ drop result batches.now }
{
    let mut heard = heard;
    'batches: for (index, batch) in batches.iter().enumerate() {
        if !comes_first(heard, kind_of(batch.as_slice()), syncs) {
            return index;
        }
        heard = false;
    }
    batches.len()
}
