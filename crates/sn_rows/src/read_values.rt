//! Reading the columns of values, kind by kind.

ghost use Rattle.std.specs.Prelude.{◌≡◌, IfOk, [], ◌∷◌};
ghost use Rattle.sn_rows.specs.Kinds.{value_kind};
ghost use Rattle.sn_rows.specs.Cells.{body, version};
ghost use Rattle.sn_rows.specs.Columns.{body_of as body_cell, value_columns, value_cells};
ghost use Rattle.sn_rows.specs.Reading.{Gives, spot, columns_at};
ghost use Rattle.sn_rows.specs.declared.kind.RowKind.TheVariants as kind;
ghost use Rattle.sn_rows.specs.declared.value.Value.TheVariants as value;

use crate::at::At;
use crate::body::RowBody;
use crate::boxed::Boxed;
use crate::device_rows::{LocalItem, OwnerRow, SetRow};
use crate::error::RowError;
use crate::fields::{
    array_of, base_of, body_of, cost_of, flag_of, stamp_of, str_of, text_of, token_of, type_of,
    u64_of,
};
use crate::kind::RowKind;
use crate::server_rows::{AccountRow, GenerationRow, ItemRow, StoreRow};
use crate::value::Value;
use sn_string::MOST_STRING;
use std::alloc::Global;
use uuid::Uuid;

/// The columns of a value of this kind.
pub(crate) fn value_of<'a>(
    alloc: Global,
    kind: RowKind,
    at: At<'a>,
) -> Result<(Value, At<'a>), RowError>
    ensures gives { Gives (λ x. (value_cells x.0, spot x.1.place x.1.rest.now)) result (columns_at (value_columns kind) (spot at.entry.place at.entry.rest.now)) }
    ensures kind { IfOk result (λ x. value_kind x.0 ≡ kind) }
{
    match kind {
        RowKind::Store => store_of(at),
        RowKind::Account => account_of(alloc, at),
        RowKind::Generation => generation_of(alloc, at),
        RowKind::Item => item_of(alloc, at),
        RowKind::Owner => owner_of(alloc, at),
        RowKind::Set => set_of(alloc, at),
        RowKind::Local => local_of(alloc, at),
    }
}

fn store_of<'a>(at: At<'a>) -> Result<(Value, At<'a>), RowError>
    ensures gives { Gives (λ x. (value_cells x.0, spot x.1.place x.1.rest.now)) result (columns_at (value_columns kind.Store) (spot at.entry.place at.entry.rest.now)) }
    ensures kind { IfOk result (λ x. value_kind x.0 ≡ kind.Store) }
{
    let (secret, at) = array_of::<32>(at)?;
    let (last, at) = stamp_of(at)?;
    let (accounts, at) = u64_of(at)?;
    let row = StoreRow {
        secret,
        last,
        accounts,
    };
    Ok((Value::Store(row), at))
}

fn account_of<'a>(alloc: Global, at: At<'a>) -> Result<(Value, At<'a>), RowError>
    ensures gives { Gives (λ x. (value_cells x.0, spot x.1.place x.1.rest.now)) result (columns_at (value_columns kind.Account) (spot at.entry.place at.entry.rest.now)) }
    ensures kind { IfOk result (λ x. value_kind x.0 ≡ kind.Account) }
{
    let (identifier, at) = text_of(alloc, at, 1, 254)?;
    let (generation, at) = u64_of(at)?;
    let (check, at) = array_of::<32>(at)?;
    let row = AccountRow {
        identifier,
        generation,
        check,
    };
    Ok((Value::Account(Boxed::of(alloc, row)?), at))
}

fn generation_of<'a>(alloc: Global, at: At<'a>) -> Result<(Value, At<'a>), RowError>
    ensures gives { Gives (λ x. (value_cells x.0, spot x.1.place x.1.rest.now)) result (columns_at (value_columns kind.Generation) (spot at.entry.place at.entry.rest.now)) }
    ensures kind { IfOk result (λ x. value_kind x.0 ≡ kind.Generation) }
{
    let (pw_cost, at) = cost_of(at)?;
    let (pw_nonce, at) = text_of(alloc, at, 1, 256)?;
    Ok((Value::Generation(GenerationRow { pw_cost, pw_nonce }), at))
}

fn item_of<'a>(alloc: Global, at: At<'a>) -> Result<(Value, At<'a>), RowError>
    ensures gives { Gives (λ x. (value_cells x.0, spot x.1.place x.1.rest.now)) result (columns_at (value_columns kind.Item) (spot at.entry.place at.entry.rest.now)) }
    ensures kind { IfOk result (λ x. value_kind x.0 ≡ kind.Item) }
{
    let (account, at) = u64_of(at)?;
    let (kind, at) = type_of(at)?;
    let (created, at) = stamp_of(at)?;
    let (updated, at) = stamp_of(at)?;
    let (deleted, at) = flag_of(at)?;
    let (content, at) = str_of(at, 0, MOST_STRING)?;
    let (enc, at) = str_of(at, 0, MOST_STRING)?;
    let row = ItemRow::packed(
        alloc, account, kind, created, updated, deleted, content, enc,
    )?;
    Ok((Value::Item(row), at))
}

fn owner_of<'a>(alloc: Global, at: At<'a>) -> Result<(Value, At<'a>), RowError>
    ensures gives { Gives (λ x. (value_cells x.0, spot x.1.place x.1.rest.now)) result (columns_at (value_columns kind.Owner) (spot at.entry.place at.entry.rest.now)) }
    ensures kind { IfOk result (λ x. value_kind x.0 ≡ kind.Owner) }
{
    let (identifier, at) = text_of(alloc, at, 1, 254)?;
    let (account, at) = array_of::<16>(at)?;
    let (token, at) = token_of(alloc, at)?;
    let (sync_token, at) = text_of(alloc, at, 0, 33_554_432)?;
    let (cursor_token, at) = text_of(alloc, at, 0, 33_554_432)?;
    let (next, at) = u64_of(at)?;
    let row = OwnerRow {
        identifier,
        account: Uuid::from_bytes(account),
        token,
        sync_token,
        cursor_token,
        next,
    };
    Ok((Value::Owner(Boxed::of(alloc, row)?), at))
}

fn set_of<'a>(alloc: Global, at: At<'a>) -> Result<(Value, At<'a>), RowError>
    ensures gives { Gives (λ x. (value_cells x.0, spot x.1.place x.1.rest.now)) result (columns_at (value_columns kind.Set) (spot at.entry.place at.entry.rest.now)) }
    ensures kind { IfOk result (λ x. value_kind x.0 ≡ kind.Set) }
{
    let (pw_cost, at) = cost_of(at)?;
    let (pw_nonce, at) = text_of(alloc, at, 1, 256)?;
    let (pw, at) = array_of::<32>(at)?;
    let (mk, at) = array_of::<32>(at)?;
    let (ak, at) = array_of::<32>(at)?;
    let row = SetRow {
        pw_cost,
        pw_nonce,
        pw,
        mk,
        ak,
    };
    Ok((Value::Set(Boxed::of(alloc, row)?), at))
}

fn local_of<'a>(alloc: Global, at: At<'a>) -> Result<(Value, At<'a>), RowError>
    ensures gives { Gives (λ x. (value_cells x.0, spot x.1.place x.1.rest.now)) result (columns_at (value_columns kind.Local) (spot at.entry.place at.entry.rest.now)) }
    ensures kind { IfOk result (λ x. value_kind x.0 ≡ kind.Local) }
{
    let (uuid, at) = array_of::<16>(at)?;
    let (kind, at) = text_of(alloc, at, 1, 255)?;
    let (base, at) = base_of(at)?;
    let (stale, at) = flag_of(at)?;
    let (versions, at) = versions_of(alloc, at)?;
    let row = LocalItem {
        uuid: Uuid::from_bytes(uuid),
        kind,
        base,
        stale,
        body: versions.body,
        latest: versions.latest,
        posted: versions.posted,
    };
    Ok((Value::Local(Boxed::of(alloc, row)?), at))
}

// What a local item has of its versions.
#[derive(Drop)]
struct Versions {
    body: Option<RowBody>,
    latest: Option<RowBody>,
    posted: Option<RowBody>,
}

fn versions_of<'a>(alloc: Global, at: At<'a>) -> Result<(Versions, At<'a>), RowError>
    ensures { Gives (λ x. (body (body_cell x.0.body) ∷ body (body_cell x.0.latest) ∷ body (body_cell x.0.posted) ∷ [], spot x.1.place x.1.rest.now)) result (columns_at (version ∷ version ∷ version ∷ []) (spot at.entry.place at.entry.rest.now)) }
{
    let (body, at) = body_of(alloc, at)?;
    let (latest, at) = body_of(alloc, at)?;
    let (posted, at) = body_of(alloc, at)?;
    let versions = Versions {
        body,
        latest,
        posted,
    };
    Ok((versions, at))
}
