//! Accounts over a link: asked for, and kept as rows.

ghost use Rattle.std.specs.Prelude.{◌≡◌, ◌≤◌, [], All, Ok, Err, IfErr, IfOk, IsErrOf};
ghost use Rattle.sn_exchange.specs.Asked.{IsAsked};
ghost use Rattle.sn_joining.specs.Accounts.{GivesAccount, IsForAccount, KeepsOrNot};
ghost use Rattle.sn_device.specs.States.{HasOwner, owner_columns};
ghost use Rattle.sn_device.specs.Steps.{BeginsDevice, Renews, first_number};
ghost use Rattle.sn_io.specs.Causes.{Rose};
ghost use Rattle.sn_journal.specs.declared.owner.Owner.TheVariants.{Device as DeviceOwner};
ghost use Rattle.sn_row_map.specs.RowMaps.{row_in};
ghost use Rattle.sn_rows.specs.Table.{Puts, Rows};
ghost use Rattle.sn_rows.specs.declared.device_rows.OwnerRow.{OwnerRow};
ghost use Rattle.sn_rows.specs.declared.key.Key.TheVariants as key;
ghost use Rattle.sn_rows.specs.declared.key.Slot.TheVariants.{Present};
ghost use Rattle.sn_rows.specs.declared.value.Value.TheVariants as value;
ghost use Rattle.sn_string.specs.Bounds.{IsIdentifier};
ghost use Rattle.sn_sync.specs.Members.{IsSessionToken};
ghost use Rattle.sn_table.specs.Batches.{IsOf};
ghost use Rattle.sn_table.specs.Tables.{table_rows};

use sn_device::ClientError;
use sn_disk::Disk;
use sn_exchange::ask_with;
use sn_local::{owner, put_owner, renewed_owner};
use sn_net::Link;
use sn_rows::{Boxed, Change, Key, OwnerRow, Row, SetRow, Slot, Value};
use sn_string::{KeySet, Params, Text};
use sn_sync::{Answer, Request};
use sn_table::Table;
use std::alloc::{AllocError, Global};
use uuid::Uuid;

/// The first local number.
const FIRST_NUMBER: u64 = 1;

/// What a device keeps of an account's answer.
#[derive(Drop)]
pub struct Account {
    pub uuid: Uuid,
    /// Its session token.
    pub token: Text,
}

/// Asks for an account.
pub fn ask_account<L: Link>(
    alloc: Global,
    link: &mut L,
    request: Request,
) -> Result<Account, ClientError>
    requires { IsForAccount request }
    ensures gives { IfOk result (λ account. GivesAccount (L.asks link.old link.new) (L.aimed link.old) request account.uuid account.token) }
    ensures token { IfOk result (λ account. IsSessionToken account.token) }
    ensures err { IfErr result (λ why. IsAsked (L.asks link.old link.new) (L.aimed link.old) request (Err why)) }
    ensures aimed { L.aimed link.new ≡ L.aimed link.old }
    ensures link_fault { IsErrOf result ClientError.LinkFault → Rose (L.fault_count link.old) (L.fault_count link.new) }
    ensures link_later { L.fault_count link.old ≤ L.fault_count link.new }
{
    match ask_with(alloc, link, request) {
        Ok(Answer::Account { token, uuid, .. }) => Ok(Account { uuid, token }),
        Ok(_) => unreachable!(),
        Err(why) => Err(why),
    }
}

/// Asks for an account, and gives the first rows that keep it with its set.
pub fn first_rows<L: Link>(
    alloc: Global,
    link: &mut L,
    request: Request,
    set: KeySet,
) -> Result<Vec<Change>, ClientError>
    requires { IsForAccount request }
    ensures ok { IfOk result (λ changes. KeepsOrNot (L.asks link.old link.new) (L.aimed link.old) request (BeginsDevice set) (Ok changes.items)) }
    ensures err { IfErr result (λ why. KeepsOrNot (L.asks link.old link.new) (L.aimed link.old) request (BeginsDevice set) (Err why)) }
    ensures owned { IfOk result (λ changes. All (IsOf DeviceOwner) changes.items) }
    ensures aimed { L.aimed link.new ≡ L.aimed link.old }
    ensures link_fault { IsErrOf result ClientError.LinkFault → Rose (L.fault_count link.old) (L.fault_count link.new) }
    ensures link_later { L.fault_count link.old ≤ L.fault_count link.new }
{
    let account = ask_account(alloc, link, request)?;
    match first_changes(alloc, set, account) {
        Ok(changes) => Ok(changes),
        Err(_) => Err(ClientError::Memory),
    }
}

// The first rows of an account with its set.
fn first_changes(alloc: Global, set: KeySet, account: Account) -> Result<Vec<Change>, AllocError>
    requires { IsSessionToken account.token }
    ensures begins { IfOk result (λ changes. BeginsDevice set account.uuid account.token changes.items) }
    ensures owned { IfOk result (λ changes. All (IsOf DeviceOwner) changes.items) }
{
    let KeySet { params, pw, mk, ak } = set;
    let Params {
        identifier,
        pw_cost,
        pw_nonce,
    } = params;
    let owner = first_owner(identifier, account);
    let Some(keys) = SetRow::new(pw_cost, pw_nonce, pw, mk, ak) else {
        unreachable!();
    };
    let owner = put_owner(alloc, owner)?;
    let present = put_present(alloc, keys)?;
    let mut changes = Vec::new(alloc);
    changes.push(owner)?;
    changes.push(present)?;
    Ok(changes)
}

// An account's row, with no token of a sync.
fn first_owner(identifier: Text, account: Account) -> OwnerRow
    requires identifier { IsIdentifier identifier }
    requires token { IsSessionToken account.token }
    ensures { owner_columns result ≡ record { identifier = identifier; account = account.uuid; token = account.token; sync_token = []; cursor_token = []; next = first_number } }
{
    let Account { uuid, token } = account;
    let none = Text::fixed("");
    let Some(owner) = OwnerRow::new(identifier, uuid, token, none, Text::fixed(""), FIRST_NUMBER)
    else {
        unreachable!();
    };
    owner
}

// The change that puts the present set.
fn put_present(alloc: Global, keys: SetRow) -> Result<Change, AllocError>
    ensures { IfOk result (λ change. Puts change (key.Set Present) (value.Set keys)) }
{
    let keys = Boxed::of(alloc, keys)?;
    Ok(Change::Put(Row {
        key: Key::Set(Slot::Present),
        value: Value::Set(keys),
    }))
}

/// The account's row with the session token that it is given anew.
pub fn renewed_row<D: Disk, L: Link>(
    alloc: Global,
    table: &Table<D>,
    link: &mut L,
    request: Request,
) -> Result<Vec<Change>, ClientError>
    requires request { IsForAccount request }
    requires owned { (owner : OwnerRow) × HasOwner (row_in (table_rows table.now)) owner }
    ensures ok { IfOk result (λ changes. KeepsOrNot (L.asks link.old link.new) (L.aimed link.old) request (λ uuid token made. Renews (row_in (table_rows table.now)) token made) (Ok changes.items)) }
    ensures err { IfErr result (λ why. KeepsOrNot (L.asks link.old link.new) (L.aimed link.old) request (λ uuid token made. Renews (row_in (table_rows table.now)) token made) (Err why)) }
    ensures owned { IfOk result (λ changes. All (IsOf DeviceOwner) changes.items) }
    ensures aimed { L.aimed link.new ≡ L.aimed link.old }
    ensures link_fault { IsErrOf result ClientError.LinkFault → Rose (L.fault_count link.old) (L.fault_count link.new) }
    ensures link_later { L.fault_count link.old ≤ L.fault_count link.new }
{
    let account = ask_account(alloc, link, request)?;
    let Some(owner) = owner(table) else {
        unreachable!();
    };
    match renewed(alloc, owner, account.token) {
        Ok(changes) => Ok(changes),
        Err(_) => Err(ClientError::Memory),
    }
}

// The change of it to another session token.
fn renewed(alloc: Global, owner: &OwnerRow, token: Text) -> Result<Vec<Change>, AllocError>
    requires { IsSessionToken token }
    ensures renews { IfOk result (λ changes. (rows : Rows) → HasOwner rows owner.now → Renews rows token changes.items) }
    ensures owned { IfOk result (λ changes. All (IsOf DeviceOwner) changes.items) }
{
    let row = renewed_owner(alloc, owner, token)?;
    let change = put_owner(alloc, row)?;
    let mut changes = Vec::new(alloc);
    changes.push(change)?;
    Ok(changes)
}
