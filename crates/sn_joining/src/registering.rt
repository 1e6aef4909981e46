//! The set of a new account, and why one isn't registered.

ghost use Rattle.std.specs.Prelude.{◌≡◌, ◌⊎◌, ◌↔◌, ◌≤◌, IfNone, IfOk, IfSome, IsTrue};
ghost use Rattle.hex.specs.Hex.{encode_lower};
ghost use Rattle.sn_joining.specs.Accounts.{IsSetWith};
ghost use Rattle.sn_device.specs.Runs.{IsBadCost};
ghost use Rattle.sn_device.specs.States.{HasNoAccount, HasOwner};
ghost use Rattle.sn_device.specs.declared.error.ClientError.TheVariants as refusal;
ghost use Rattle.sn_row_map.specs.RowMaps.{row_in};
ghost use Rattle.sn_rows.specs.declared.device_rows.OwnerRow.{OwnerRow};
ghost use Rattle.sn_string.specs.Bounds.{IsIdentifier};
ghost use Rattle.sn_sync.specs.declared.request.Request.TheVariants as request;
ghost use Rattle.sn_table.specs.Tables.{table_rows};

use sn_device::ClientError;
use sn_disk::Disk;
use sn_keys::derive;
use sn_local::owner;
use sn_string::{KeySet, Params, Text, TryClone, hex_text};
use sn_sync::Request;
use sn_table::Table;
use std::alloc::{AllocError, Global};

/// The highest cost that is taken.
const MOST_COST: u32 = 10_000_000;

/// Why a registration is refused before anything is drawn.
pub fn registration_refusal<D: Disk>(
    alloc: Global,
    table: &Table<D>,
    least: u32,
    cost: u32,
) -> Option<ClientError>
    ensures some { IfSome result (λ why. (why ≡ refusal.Memory)
        ⊎ (((owner : OwnerRow) × HasOwner (row_in (table_rows table.now)) owner × (why ≡ refusal.HasAccount owner.identifier))
        ⊎ (HasNoAccount (row_in (table_rows table.now)) × IsBadCost least cost × (why ≡ refusal.Cost cost)))) }
    ensures none { IfNone result (HasNoAccount (row_in (table_rows table.now)) × ¬ (IsBadCost least cost)) }
{
    if let Some(owner) = owner(table) {
        return match owner.identifier.try_clone(alloc) {
            Ok(identifier) => Some(ClientError::HasAccount { identifier }),
            Err(_) => Some(ClientError::Memory),
        };
    }
    is_bad_cost(least, cost).then_some(ClientError::Cost { cost })
}

/// Whether a cost isn't taken.
pub fn is_bad_cost(least: u32, cost: u32) -> bool
    ensures { IsTrue result ↔ IsBadCost least cost }
{
    cost == 0 || cost < least || cost > MOST_COST
}

/// The set of a password, under the identifier, the cost and this nonce.
pub fn new_set(
    alloc: Global,
    nonce: &[u8; 32],
    identifier: &str,
    password: &str,
    cost: u32,
) -> Result<KeySet, AllocError>
    requires identifier { IsIdentifier identifier.now }
    requires cost { 1 ≤ cost }
    ensures { IfOk result (IsSetWith nonce.now identifier.now password.now cost) }
{
    let params = new_params(alloc, nonce, identifier, cost)?;
    derive(alloc, password, &params)
}

/// The set of a password under these parameters, and the request that registers it.
pub fn registration(
    alloc: Global,
    nonce: &[u8; 32],
    identifier: &str,
    password: &str,
    cost: u32,
) -> Result<(KeySet, Request), AllocError>
    requires identifier { IsIdentifier identifier.now }
    requires cost { 1 ≤ cost }
    ensures set { IfOk result (λ made. IsSetWith nonce.now identifier.now password.now cost made.0) }
    ensures request { IfOk result (λ made. made.1 ≡ request.Register made.0.params made.0.pw) }
{
    let set = new_set(alloc, nonce, identifier, password, cost)?;
    let params = set.params.try_clone(alloc)?;
    let pw = set.pw;
    Ok((set, Request::Register { params, pw }))
}

// Parameters with a nonce.
fn new_params(
    alloc: Global,
    nonce: &[u8; 32],
    identifier: &str,
    cost: u32,
) -> Result<Params, AllocError>
    requires identifier { IsIdentifier identifier.now }
    requires cost { 1 ≤ cost }
    ensures { IfOk result (λ params. (params.identifier ≡ identifier.now) × (params.pw_cost ≡ cost) × (params.pw_nonce ≡ encode_lower nonce.now)) }
{
    let nonce = Text::of_string(hex_text(alloc, nonce)?);
    let identifier = Text::of(alloc, identifier)?;
    let Some(params) = Params::new(identifier, cost, nonce) else {
        unreachable!();
    };
    Ok(params)
}
