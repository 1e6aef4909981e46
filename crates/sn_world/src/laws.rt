//! What each step of the world keeps, by the definitions alone. The functions call the laws below them
//! and do nothing else; their contracts are the laws.

ghost use Rattle.sn_world.specs.Calls.{CallsGo, FrontsGo, LeadsKeep, RegistersGo, SignInsGo, SyncsGo};
ghost use Rattle.sn_world.specs.Laws.{AppliedWhole, ChangedAdopts, HoldsFirst, Keeps, KeepsCommitting, KeepsMaking, KeepsServing, KeepsStarting, RegisteredBegins, SaysSome, SendsArePosted, ServedTells, SignedInAdopts, SignedInBegins, SignedInRenews, SyncedRows, TraceKeeps};
ghost use Rattle.sn_world.specs.Making.{MakesLive};
ghost use Rattle.sn_world.specs.Rounds.{RoundsGo};
ghost use Rattle.sn_world.specs.Sessions.{AgainLeads};
ghost use Rattle.sn_world.specs.Synced.{SyncsEnd};

use crate::settling_laws::applies_live;
use sn_account::answer_laws::syncs_tell;
use sn_account::rule_laws::stays_sound;
use sn_changed::laws::{change_served, change_sessions, change_spares, rewrap_taken, stale_behind};
use sn_changed::leaving_laws::{
    change_lasts, change_leaves, change_on_last, item_owner, rewrap_leaves, version_lasts,
    version_on_last,
};
use sn_device::{fresh_is_sound, stay_standing, steps_stay_sound};
use sn_items::one_content;
use sn_laws::laws::versions_rise;
use sn_laws::state_laws::{deletions_stay, numbers_held};
use sn_shows::device_laws::{
    edit_keeps, edited_shows, join_keeps, joined_shows, post_keeps, posted_shows, settle_keeps,
    settled_shows, tokens_show,
};
use sn_shows::rekeying_laws::{change_keeps, changed_last, rewrap_keeps};
use sn_shows::server_laws::{
    accept_keeps, accepted_last, accepted_shows, accounts_apart, register_keeps, registered_shows,
    store_shows,
};
use sn_sync::laws::{one_stamp, one_token};

/// The invariant holds before anything happened.
pub fn holds_first()
    ensures { HoldsFirst }
{
    fresh_is_sound();
}

/// The server's first commit keeps it.
pub fn keeps_starting()
    ensures { KeepsStarting }
{
    store_shows();
    one_token();
}

/// What a device sends of its rows, each posted or to be sealed again, may be accepted, is its item's last
/// version sealed again, or changes nothing.
pub fn makes_live()
    ensures { MakesLive }
{
    one_stamp();
    versions_rise();
    stale_behind();
}

/// A request that a device makes keeps the invariant, whether it is delivered or not.
pub fn keeps_making()
    ensures { KeepsMaking }
{
    accounts_apart();
    makes_live();
}

/// Any request that was made is served, at any time and as often as may be: the moves that its batch
/// says are legal, and the invariant holds after them.
pub fn keeps_serving()
    ensures { KeepsServing }
{
    accepted_shows();
    accepted_last();
    accept_keeps();
    accounts_apart();
    store_shows();
    one_stamp();
    one_token();
    registered_shows();
    register_keeps();
    stays_sound();
    rewrap_taken();
    rewrap_leaves();
    rewrap_keeps();
    item_owner();
    version_lasts();
    version_on_last();
    change_served();
    change_leaves();
    change_lasts();
    change_on_last();
    change_sessions();
    change_spares();
    change_keeps();
    changed_last();
}

/// What a registration is answered with is what a device may begin with.
pub fn registered_begins()
    ensures { RegisteredBegins }
{}

/// What a change of password is answered with is what its device may adopt.
pub fn changed_adopts()
    ensures { ChangedAdopts }
{
    accounts_apart();
    change_served();
    change_leaves();
}

/// What a sign-in is answered with is what a device may begin with.
pub fn signed_in_begins()
    ensures { SignedInBegins }
{}

/// And what a device of the account may renew its session token with, where it holds the present set.
pub fn signed_in_renews()
    ensures { SignedInRenews }
{
    accounts_apart();
}

/// Where it doesn't, it may adopt that with it.
pub fn signed_in_adopts()
    ensures { SignedInAdopts }
{
    accounts_apart();
}

/// What a round of a device's sync posts and sends may be committed and made, and its answer applied.
pub fn sends_are_posted()
    ensures { SendsArePosted }
{}

/// The answer to a sync is what its device may apply, before another request is served.
pub fn served_tells()
    ensures { ServedTells }
{
    accounts_apart();
    syncs_tell();
    keeps_serving();
}

/// A device commits its first rows, a renewed session token, a new item, an edit, a deletion, drafts that
/// it posts, the answer to a sync, a set that it asks for, adopts or forgets: the moves are legal, and the
/// invariant holds after them.
pub fn keeps_committing()
    ensures { KeepsCommitting }
{
    accounts_apart();
    joined_shows();
    join_keeps();
    tokens_show();
    edited_shows();
    edit_keeps();
    posted_shows();
    post_keeps();
    steps_stay_sound();
    stay_standing();
    one_stamp();
    one_token();
    versions_rise();
    one_content();
    deletions_stay();
    numbers_held();
    applies_live();
    settle_keeps();
    settled_shows();
}

/// Where an answer without a cursor is applied, the device has pulled all versions of its account.
pub fn applied_whole()
    ensures { AppliedWhole }
{
    accounts_apart();
}

/// Where it has pulled these and has no draft, its rows stand on just the undeleted last versions of its
/// account.
pub fn synced_rows()
    ensures { SyncedRows }
{
    versions_rise();
}

/// Each step of the world keeps the invariant, and its moves are legal.
pub fn keeps()
    ensures { Keeps }
{
    keeps_starting();
    keeps_making();
    keeps_serving();
    keeps_committing();
}

/// Each step says some moves.
pub fn says_some()
    ensures { SaysSome }
{
    accounts_apart();
}

/// Whatever steps are made from the beginning on, and however requests of several devices are delivered:
/// their moves are legal, and both ends show the state to which these lead.
pub fn trace_keeps()
    ensures { TraceKeeps }
{
    holds_first();
    keeps();
}

/// A round of a device's sync, over a server that answers by its rule, is such steps.
pub fn rounds_go()
    ensures { RoundsGo }
{
    accounts_apart();
    keeps_committing();
    keeps_making();
    keeps_serving();
    served_tells();
    sends_are_posted();
    says_some();
}

/// Wherever steps lead from a world in which the invariant holds, their moves are legal and it holds again.
pub fn leads_keep()
    ensures { LeadsKeep }
{
    keeps();
}

/// Whatever a call does that asks a server for nothing, and however it ends, is such steps.
pub fn calls_go()
    ensures { CallsGo }
{
    keeps();
    says_some();
}

/// So is whatever a sync does, whichever of its requests and answers are lost.
pub fn syncs_go()
    ensures { SyncsGo }
{
    accounts_apart();
    keeps_committing();
    keeps_making();
    keeps_serving();
    served_tells();
    sends_are_posted();
    keeps();
    says_some();
}

/// A sync that is answered is such steps, and they leave its device with no draft, and with rows that stand
/// on just the undeleted last versions of its account.
pub fn syncs_end()
    ensures { SyncsEnd }
{
    applied_whole();
    synced_rows();
    keeps();
    syncs_go();
}

/// So is whatever a registration does.
pub fn registers_go()
    ensures { RegistersGo }
{
    accounts_apart();
    keeps();
    says_some();
    registered_begins();
    signed_in_begins();
}

/// So is whatever a sign-in does, where no second password was found that has the check value of the first.
pub fn sign_ins_go()
    ensures { SignInsGo }
{
    accounts_apart();
    keeps();
    says_some();
    registered_begins();
    signed_in_begins();
}

/// And the first acts of a call alone, behind which its device may be stopped.
pub fn fronts_go()
    ensures { FrontsGo }
{}

/// A request that was made leads on wherever it is delivered late or again, with the set that it would begin.
pub fn again_leads()
    ensures { AgainLeads }
{
    says_some();
}
