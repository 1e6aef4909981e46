//! The keys of a password under an account's parameters, and what a device makes of them.

ghost use Rattle.std.specs.Prelude.{◌≡◌, ◌≢◌, ◌⊎◌, ◌↔◌, ◌≤◌, Err, IfErr, IfNone, IfOk, IfSome, IsErrOf, IsTrue, OnOk};
ghost use Rattle.sn_exchange.specs.Asked.{AsksOnce, IsAsked};
ghost use Rattle.sn_device.specs.Asking.{said};
ghost use Rattle.sn_device.specs.Runs.{IsBadCost, IsOrMayBe, IsOtherOlder};
ghost use Rattle.sn_joining.specs.Signing.{HasKeys, JoinsAgain, JoinsBy, RefusesAgain, RefusesKeys, RefusesParams, RefusesWith, bad_auth};
ghost use Rattle.sn_device.specs.States.{AreSoundSets, HasOwner};
ghost use Rattle.sn_device.specs.declared.error.ClientError.TheVariants as refusal;
ghost use Rattle.sn_io.specs.Causes.{Rose};
ghost use Rattle.sn_row_map.specs.RowMaps.{row_in};
ghost use Rattle.sn_rows.specs.declared.device_rows.OwnerRow.{OwnerRow};
ghost use Rattle.sn_sync.specs.declared.request.Request.TheVariants as request;
ghost use Rattle.sn_table.specs.Tables.{table_rows};

use crate::registering::is_bad_cost;
use sn_device::{ClientError, Place};
use sn_disk::Disk;
use sn_exchange::ask_with;
use sn_keys::derive;
use sn_local::{owner, sets_of};
use sn_net::Link;
use sn_sets::Sets;
use sn_string::{KeySet, Params, Text, TryClone};
use sn_sync::{Answer, Request};
use sn_table::Table;
use std::alloc::{AllocError, Global};

/// What a device does with the keys of a password under parameters of its account.
#[derive(Drop)]
pub enum Joining {
    /// It has no account, and begins with it.
    Begins,
    /// The keys are those of the present set: the session token is renewed.
    Renews,
    /// The keys are of no set that is held: theirs is adopted.
    Adopts,
}

/// What a device does with keys.
pub fn joins_by<D: Disk>(
    alloc: Global,
    table: &Table<D>,
    set: &KeySet,
) -> Result<Joining, ClientError>
    requires sound { AreSoundSets (row_in (table_rows table.now)) }
    ensures ok { IfOk result (JoinsBy (row_in (table_rows table.now)) set.now) }
    ensures err { IfErr result (RefusesWith (row_in (table_rows table.now)) set.now) }
{
    let Ok(found) = sets_of(alloc, table) else {
        return Err(ClientError::Memory);
    };
    match found {
        Some(sets) => joins_again(&sets, set),
        None => Ok(Joining::Begins),
    }
}

// The same on a device that holds these sets.
fn joins_again(sets: &Sets, set: &KeySet) -> Result<Joining, ClientError>
    ensures ok { IfOk result (JoinsAgain sets.now set.now) }
    ensures err { IfErr result (RefusesAgain sets.now set.now) }
{
    if set.same(&sets.present) {
        return Ok(Joining::Renews);
    }
    if set.params.same(&sets.present.params) || is_other_older(sets, set) {
        return Err(ClientError::WrongPassword);
    }
    Ok(Joining::Adopts)
}

/// The refusal of a store with another account.
pub fn other_account<D: Disk>(
    alloc: Global,
    table: &Table<D>,
    identifier: &str,
) -> Option<ClientError>
    ensures some { IfSome result (λ why. (why ≡ refusal.Memory) ⊎ ((owner : OwnerRow) × HasOwner (row_in (table_rows table.now)) owner
        × (owner.identifier ≢ identifier.now) × (why ≡ refusal.OtherAccount owner.identifier))) }
    ensures none { IfNone result (IsOrMayBe (row_in (table_rows table.now)) identifier.now) }
{
    let owner = owner(table)?;
    if owner.identifier.as_str() == identifier {
        return None;
    }
    match owner.identifier.try_clone(alloc) {
        Ok(identifier) => Some(ClientError::OtherAccount { identifier }),
        Err(_) => Some(ClientError::Memory),
    }
}

/// The keys of a password under the account's parameters, as the host answers them.
pub fn ask_keys<L: Link>(
    alloc: Global,
    link: &mut L,
    least: u32,
    identifier: &str,
    password: &str,
) -> Result<KeySet, ClientError>
    ensures keys { IfOk result (HasKeys (L.asks link.old link.new) (L.aimed link.old) least identifier.now password.now) }
    ensures err { IfErr result (RefusesKeys (L.asks link.old link.new) (L.aimed link.old) least identifier.now) }
    ensures aimed { L.aimed link.new ≡ L.aimed link.old }
    ensures link_fault { IsErrOf result ClientError.LinkFault → Rose (L.fault_count link.old) (L.fault_count link.new) }
    ensures link_later { L.fault_count link.old ≤ L.fault_count link.new }
{
    let params = ask_params(alloc, link, identifier)?;
    check_params(least, identifier, &params)?;
    match derive(alloc, password, &params) {
        Ok(set) => Ok(set),
        Err(_) => Err(ClientError::Memory),
    }
}

fn ask_params<L: Link>(alloc: Global, link: &mut L, identifier: &str) -> Result<Params, ClientError>
    ensures gives { IfOk result (λ params. AsksOnce (L.asks link.old link.new) (L.aimed link.old) (request.Params identifier.now) (said (Answer.Params params))) }
    ensures err { IfErr result (λ why. IsAsked (L.asks link.old link.new) (L.aimed link.old) (request.Params identifier.now) (Err why)) }
    ensures aimed { L.aimed link.new ≡ L.aimed link.old }
    ensures link_fault { IsErrOf result ClientError.LinkFault → Rose (L.fault_count link.old) (L.fault_count link.new) }
    ensures link_later { L.fault_count link.old ≤ L.fault_count link.new }
{
    let Ok(identifier) = Text::of(alloc, identifier) else {
        return Err(ClientError::Memory);
    };
    match ask_with(alloc, link, Request::Params { identifier }) {
        Ok(Answer::Params(params)) => Ok(params),
        Ok(_) => unreachable!(),
        Err(why) => Err(why),
    }
}

// Whether the parameters are this account's and of a cost that is taken.
fn check_params(least: u32, identifier: &str, params: &Params) -> Result<(), ClientError>
    ensures ok { OnOk result ((params.now.identifier ≡ identifier.now) × ¬ (IsBadCost least params.now.pw_cost)) }
    ensures err { IfErr result (RefusesParams least identifier.now params.now) }
{
    if params.identifier.as_str() != identifier {
        return Err(ClientError::BadAnswer {
            place: Place::Member {
                name: Text::fixed("identifier"),
            },
        });
    }
    if is_bad_cost(least, params.pw_cost) {
        return Err(ClientError::Cost {
            cost: params.pw_cost,
        });
    }
    Ok(())
}

/// The refusal of a set that the account doesn't have.
pub fn bad_auth() -> ClientError
    ensures { result ≡ bad_auth }
{
    ClientError::Refused {
        status: 401,
        tag: Text::fixed("bad-auth"),
    }
}

// Whether keys have the older set's parameters and aren't its own.
fn is_other_older(sets: &Sets, set: &KeySet) -> bool
    ensures { IsTrue result ↔ IsOtherOlder sets.now set.now }
{
    match &sets.older {
        Some(older) => set.params.same(&older.params) && !set.same(older),
        None => false,
    }
}

/// The request that signs in with a set.
pub fn sign_in_request(alloc: Global, set: &KeySet) -> Result<Request, AllocError>
    ensures { IfOk result (λ r. r ≡ request.SignIn set.now.params.identifier set.now.pw) }
{
    let identifier = set.params.identifier.try_clone(alloc)?;
    Ok(Request::SignIn {
        identifier,
        pw: set.pw,
    })
}
