//! What a sync sends: of the items that wait, the longest front that fits one request.

ghost use Rattle.std.specs.Prelude.{◌≡◌, ◌≢◌, ◌⊎◌, ◌↔◌, ◌<◌, ◌≤◌, ◌+◌, ℕ, List, [], Some, All, IfOk, IsFalse, IsSome, IsTrue, OnOk, length};
ghost use Rattle.std.specs.Option.{ForSome, option_copied};
ghost use Rattle.sn_sending.specs.Chosen.{AreTaken, PostsNone, PostsOne, TakesOne, counted};
ghost use Rattle.sn_local.specs.Index.{Indexes};
ghost use Rattle.sn_device.specs.Runs.{Sends};
ghost use Rattle.sn_device.specs.Sending.{AreChosen, AreSentAs, IsSentAs, IsSyncOf, IsUnsent, NoneWaits, Numbered, PutsColumns, SaysBase, SomeWaits, as_posted, message_body, most_sent, sent_of, weight_of};
ghost use Rattle.sn_device.specs.States.{HasOwner, IsSound, IsSoundItem, columns, token_of};
ghost use Rattle.sn_journal.specs.declared.owner.Owner.TheVariants.{Device as DeviceOwner};
ghost use Rattle.sn_row_map.specs.RowMaps.{row_in};
ghost use Rattle.sn_rows.specs.Table.{Rows};
ghost use Rattle.sn_string.specs.Bounds.{last_stamp, most_bytes};
ghost use Rattle.sn_table.specs.Batches.{IsOf};
ghost use Rattle.sn_table.specs.Tables.{table_rows};

use sn_disk::Disk;
use sn_local::{Index, first_waiting, next_waiting, put_local};
use sn_rows::{Change, LocalItem, OwnerRow, RowBody};
use sn_string::{MOST_BYTES, OwnedList, Text, TryClone};
use sn_sync::{Body, Item, Request, Stamp};
use sn_table::Table;
use std::alloc::{AllocError, Global};

/// How many items a request has at most.
const MOST_SENT: usize = 150;

/// How many items an answer may give at most.
const MOST_RETRIEVED: u32 = 150;

/// What a sync sends next.
#[derive(Drop)]
pub struct Sending {
    /// The local numbers of the drafts among it that weren't sent before.
    pub numbers: Vec<u64>,
    /// Keeps these as they are sent.
    pub changes: Vec<Change>,
    pub request: Request,
}

/// What is sent next for an account.
pub fn next_sending<D: Disk>(
    alloc: Global,
    table: &Table<D>,
    index: &Index,
    account: &OwnerRow,
) -> Result<Sending, AllocError>
    requires indexed { Indexes index.now (row_in (table_rows table.now)) }
    requires sound { IsSound (row_in (table_rows table.now)) }
    requires owned { HasOwner (row_in (table_rows table.now)) account.now }
    ensures sends { IfOk result (λ s. (ready : Rows) × Sends (row_in (table_rows table.now)) s.numbers.items s.changes.items s.request ready) }
    ensures owned { IfOk result (λ s. All (IsOf DeviceOwner) s.changes.items) }
{
    let chosen = choose(alloc, table, index, account)?;
    let Chosen {
        numbers,
        changes,
        items,
        ..
    } = chosen;
    let request = sync_request(alloc, account, items)?;
    Ok(Sending {
        numbers,
        changes,
        request,
    })
}

/// Whether an item waits to be sent.
pub fn is_left<D: Disk>(table: &Table<D>, index: &Index) -> bool
    requires indexed { Indexes index.now (row_in (table_rows table.now)) }
    ensures some { IsTrue result → SomeWaits (row_in (table_rows table.now)) }
    ensures none { IsFalse result → NoneWaits (row_in (table_rows table.now)) }
{
    first_waiting(table, index).is_some()
}

// The request of a sync with these items.
fn sync_request(alloc: Global, account: &OwnerRow, items: Vec<Item>) -> Result<Request, AllocError>
    ensures { IfOk result (λ r. (chosen : List Numbered) → AreSentAs chosen items.items → IsSyncOf account.now chosen r) }
{
    let token = account.token.try_clone(alloc)?;
    let sync_token = optional_token(alloc, &account.sync_token)?;
    let cursor_token = optional_token(alloc, &account.cursor_token)?;
    Ok(Request::Sync {
        token,
        items: OwnedList::of_vec(items),
        limit: MOST_RETRIEVED,
        sync_token,
        cursor_token,
    })
}

// A sync or cursor token, where there is one.
fn optional_token(alloc: Global, token: &Text) -> Result<Option<Text>, AllocError>
    ensures { IfOk result (λ t. t ≡ token_of token.now) }
{
    if token.is_empty() {
        return Ok(None);
    }
    Ok(Some(token.try_clone(alloc)?))
}

// ---- items that are chosen

// What was made of the items that are chosen so far, and the bytes of their strings.
#[derive(Drop)]
struct Chosen {
    alloc: Global,
    numbers: Vec<u64>,
    changes: Vec<Change>,
    items: Vec<Item>,
    bytes: usize,
}

// Chooses of the items that wait.
fn choose<D: Disk>(
    alloc: Global,
    table: &Table<D>,
    index: &Index,
    account: &OwnerRow,
) -> Result<Chosen, AllocError>
    requires indexed { Indexes index.now (row_in (table_rows table.now)) }
    requires sound { IsSound (row_in (table_rows table.now)) }
    requires owned { HasOwner (row_in (table_rows table.now)) account.now }
    ensures { IfOk result (λ taken. (chosen later : List Numbered)
        × AreChosen (row_in (table_rows table.now)) chosen later × AreTaken (row_in (table_rows table.now)) chosen taken) }
{
    let mut chosen = Chosen::new(alloc);
    let mut next = first_waiting(table, index);
    'waiting: while let Some((number, item)) = next {
        if !chosen.has_room(item) {
            return Ok(chosen);
        }
        chosen.take(number, item)?;
        next = next_waiting(table, index, number);
    }
    Ok(chosen)
}

impl Chosen {
    fn new(alloc: Global) -> Chosen
        ensures { (rows : Rows) → AreTaken rows [] result }
    {
        Chosen {
            alloc,
            numbers: Vec::new(alloc),
            changes: Vec::new(alloc),
            items: Vec::new(alloc),
            bytes: 0,
        }
    }

    // Whether one item more fits the request; the first always does.
    fn has_room(&self, item: &LocalItem) -> bool
        ensures { IsTrue result ↔ ((length self.now.items.items ≡ 0)
            ⊎ ((length self.now.items.items < most_sent) × (self.now.bytes + weight_of (sent_of item.now) ≤ most_bytes))) }
    {
        if self.items.is_empty() {
            return true;
        }
        self.items.len() < MOST_SENT && self.bytes.saturating_add(weight(item)) as u64 <= MOST_BYTES
    }

    // Chooses an item.
    fn take(&mut self, number: u64, item: &LocalItem) -> Result<(), AllocError>
        requires { IsSome (sent_of item.now) }
        ensures { OnOk result (TakesOne number item.now self.old self.new) }
    {
        let Some(version) = sent(item) else {
            unreachable!();
        };
        let message = item_of(self.alloc, item, version)?;
        self.post(number, item)?;
        self.items.push(message)?;
        self.bytes = self.bytes.saturating_add(weight(item));
        Ok(())
    }

    // Posts an item, if it wasn't sent before.
    fn post(&mut self, number: u64, item: &LocalItem) -> Result<(), AllocError>
        ensures posts { OnOk result (PostsOne number item.now self.old self.new ⊎ PostsNone item.now self.old self.new) }
        ensures items { OnOk result (self.new.items.items ≡ self.old.items.items) }
        ensures bytes { OnOk result (self.new.bytes ≡ self.old.bytes) }
    {
        if !is_unsent(item) {
            return Ok(());
        }
        let change = posted(self.alloc, number, item)?;
        self.numbers.push(number)?;
        self.changes.push(change)?;
        Ok(())
    }
}

// ---- one item

// Whether an item has a draft that wasn't sent before.
fn is_unsent(item: &LocalItem) -> bool
    ensures { IsTrue result ↔ IsUnsent item.now }
{
    item.latest.is_some() && item.posted.is_none()
}

// What is sent of an item.
fn sent(item: &LocalItem) -> Option<&RowBody>
    ensures { option_copied result ≡ sent_of item.now }
{
    if let Some(version) = &item.posted {
        return Some(version);
    }
    if let Some(version) = &item.latest {
        return Some(version);
    }
    item.body.as_ref()
}

// The bytes of the strings that are sent of an item.
fn weight(item: &LocalItem) -> usize
    ensures { result ≡ counted (weight_of (sent_of item.now)) }
{
    match sent(item) {
        Some(RowBody::Sealed(strings)) => strings.content.len().saturating_add(strings.enc.len()),
        _ => 0,
    }
}

// The change that keeps an item's draft as it is sent.
fn posted(alloc: Global, number: u64, item: &LocalItem) -> Result<Change, AllocError>
    ensures { IfOk result (λ change. PutsColumns change number (as_posted (columns item.now))) }
{
    let kind = item.kind.try_clone(alloc)?;
    let body = item.body.try_clone(alloc)?;
    let latest = item.latest.try_clone(alloc)?;
    let posted = item.latest.try_clone(alloc)?;
    let row = LocalItem {
        uuid: item.uuid,
        kind,
        base: item.base,
        stale: item.stale,
        body,
        latest,
        posted,
    };
    put_local(alloc, number, row)
}

// An item as it is sent, with this version.
fn item_of(alloc: Global, item: &LocalItem, version: &RowBody) -> Result<Item, AllocError>
    requires { sent_of item.now ≡ Some version.now }
    ensures { IfOk result (IsSentAs item.now) }
{
    let kind = item.kind.try_clone(alloc)?;
    let updated_at = base_text(alloc, item.base)?;
    let body = message_body(alloc, version)?;
    Ok(Item {
        uuid: item.uuid,
        kind,
        created: None,
        updated_at,
        body,
    })
}

// The text of the stamp of the version that is replaced.
fn base_text(alloc: Global, base: Option<u64>) -> Result<Option<Text>, AllocError>
    requires { ForSome base (λ stamp. stamp ≤ last_stamp) }
    ensures { IfOk result (SaysBase base) }
{
    match base {
        Some(stamp) => Ok(Some(Text::of_string(Stamp::text(alloc, stamp)?))),
        None => Ok(None),
    }
}

fn message_body(alloc: Global, version: &RowBody) -> Result<Body, AllocError>
    ensures { IfOk result (λ body. body ≡ message_body version.now) }
{
    match version {
        RowBody::Deleted => Ok(Body::Deleted),
        RowBody::Sealed(strings) => {
            let content = strings.content.try_clone(alloc)?;
            let enc = strings.enc.try_clone(alloc)?;
            Ok(Body::Strings { content, enc })
        }
    }
}
