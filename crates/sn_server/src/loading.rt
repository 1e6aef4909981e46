//! Loading a server from what a crash may have left.

ghost use Rattle.std.specs.Prelude.{◌≡◌, ◌≤◌, IfOk, IfErr, length};
ghost use Rattle.sn_journal.specs.Image.{most_payload};
ghost use Rattle.sn_row_map.specs.RowMaps.{row_in};
ghost use Rattle.sn_rows.specs.Spelling.{spelled};
ghost use Rattle.sn_server.specs.Beginning.{PutsFirst};
ghost use Rattle.sn_server.specs.Emptiness.{IsEmptyIff, IsKindEmptyIff};
ghost use Rattle.sn_server.specs.Loads.{IsFirst};

use crate::error::ServerError;
use crate::server::Server;
use sn_account::{State, first_unsound};
use sn_disk::Disk;
use sn_items::Words;
use sn_journal::Owner;
use sn_row_map::RowMap;
use sn_rows::{Change, Key, Row, RowKind, StoreRow, Value};
use sn_string::OwnedList;
use sn_table::{CommitError, Committed, Log, load_log};
use std::alloc::{AllocError, Global};

impl<D: Disk> Server<D> {
    ghost use Rattle.std.specs.Prelude.{◌≢◌, ◌⊎◌, ◌≤◌, ◌++◌, ◌∷◌, [], List, ℕ};
    ghost use Rattle.sn_account.specs.Sound.{IsSound};
    ghost use Rattle.sn_disk.specs.Disk.{LeavesOnly};
    ghost use Rattle.sn_rows.specs.declared.change.Change.{Change};
    ghost use Rattle.sn_server.specs.Loads.{IsLoaded, IsOpenError, IsServerError, Opens, StandsOrBegins, StandsOrBeginsOneOf, StaysOrBegins, StaysRefused, given_disk, kept_of, secret_of};
    ghost use Rattle.sn_table.specs.Batches.{IsAllOrNothing, IsStore};
    ghost use Rattle.sn_server.specs.Stores.{IsOpen, server_disk, server_rows};
    ghost use Rattle.sn_journal.specs.declared.owner.Owner.TheVariants.{Server as ServerOwner};
    ghost use Rattle.sn_table.specs.Logs.{HasKinds, StandsFor, log_disk, log_owner};

    /// Loads the server of a disk. One that has no row yet draws its secret from the words, and makes its first commit.
    ///
    /// After an error the disk may be loaded again.
    pub fn load(alloc: Global, disk: D, words: &mut Words) -> Result<Server<D>, (D, ServerError)>
        // It is open with what the disk's bytes stand for, or behind its first commit.
        ensures loaded { D.told → IfOk result (IsLoaded IsOpen (D.seen disk) words.old words.new) }

        // A crash at any moment leaves what it might have left before, the batches that the disk's bytes stand for, or where
        // these have no row them with the whole first commit.
        ensures any_moment { D.told → LeavesOnly D.moment D.left_since disk (given_disk server_disk result)
            (StaysOrBegins (D.may_leave disk) (D.seen disk) (secret_of words.old)) }

        // A store that is refused isn't written over.
        ensures stays { D.told → IfErr result (λ refusal. LeavesOnly D.moment D.left_since disk refusal.0
            (StaysRefused refusal.1 (D.may_leave disk) (D.seen disk) (secret_of words.old))) }

        // Where each outcome of a crash stands for the same batches, these are opened, and each further outcome stands for
        // them, or where they have no row for them with the whole first commit.
        ensures same { D.told → (batches : List (List Change)) → ((c : List ℕ) → D.may_leave disk c → IsStore ServerOwner c batches) →
            IfOk result (Opens IsOpen (kept_of batches) words.old words.new)
            × LeavesOnly D.moment D.left_since disk (given_disk server_disk result) (StandsOrBegins (kept_of batches) (secret_of words.old)) }

        // The same where each outcome has a last batch whole or not at all, for the one or the other.
        ensures either { D.told → (batches : List (List Change)) (changes : List Change) → ((c : List ℕ) → D.may_leave disk c → IsAllOrNothing ServerOwner batches changes c) →
            IfOk result (λ server. Opens IsOpen (kept_of batches) words.old words.new server ⊎ Opens IsOpen (kept_of (batches ++ changes ∷ [])) words.old words.new server)
            × LeavesOnly D.moment D.left_since disk (given_disk server_disk result) (StandsOrBeginsOneOf (kept_of batches) (kept_of (batches ++ changes ∷ [])) (secret_of words.old)) }

        ensures sound { IfOk result (λ server. IsSound (server_rows server)) }
        ensures refused { IfErr result (λ refusal. IsServerError D.told (D.seen disk) (D.fault_count disk) (D.fault_count refusal.0) refusal.1) }
        ensures grows { D.grows disk (given_disk server_disk result) }
        ensures later { D.fault_count disk ≤ D.fault_count (given_disk server_disk result) }
    {
        match load_log(alloc, disk, Owner::Server) {
            Ok((log, rows)) => Server::open(alloc, log, rows, words),
            Err((disk, error)) => Err((disk, ServerError::of_table(error))),
        }
    }

    // Opens the rows of a log, or makes the first commit.
    fn open(
        alloc: Global,
        log: Log<D>,
        rows: RowMap,
        words: &mut Words,
    ) -> Result<Server<D>, (D, ServerError)>
        requires owner { log_owner log ≡ ServerOwner }
        requires kinds { HasKinds rows }
        ensures opens { (batches : List (List Change)) → (D.told → StandsFor log batches) → IfOk result (Opens IsOpen (record { rows = row_in rows; batches = batches }) words.old words.new) }
        ensures any_moment { D.told → (batches : List (List Change)) → StandsFor log batches →
            LeavesOnly D.moment D.left_since (log_disk log) (given_disk server_disk result) (StandsOrBegins (record { rows = row_in rows; batches = batches }) (secret_of words.old)) }
        ensures still { IfErr result (λ refusal. refusal.1 ≢ ServerError.DiskFault → refusal.0 ≡ log_disk log) }
        ensures sound { IfOk result (λ server. IsSound (server_rows server)) }
        ensures refused { IfErr result (λ refusal. IsOpenError (row_in rows) (D.fault_count (log_disk log)) (D.fault_count refusal.0) refusal.1) }
        ensures grows { D.grows (log_disk log) (given_disk server_disk result) }
        ensures later { D.fault_count (log_disk log) ≤ D.fault_count (given_disk server_disk result) }
    {
        if is_empty(&rows) {
            let secret = words.secret();
            Server::begin(alloc, log, rows, secret)
        } else {
            Server::check(alloc, log, rows)
        }
    }
}

// Whether no key has a row.
fn is_empty(rows: &RowMap) -> bool
    ensures { IsEmptyIff (row_in rows.now) result }
{
    is_kind_empty(rows, RowKind::Store)
        && is_kind_empty(rows, RowKind::Account)
        && is_kind_empty(rows, RowKind::Generation)
        && is_kind_empty(rows, RowKind::Item)
        && is_kind_empty(rows, RowKind::Owner)
        && is_kind_empty(rows, RowKind::Set)
        && is_kind_empty(rows, RowKind::Local)
}

// Whether no key of a kind has a row.
fn is_kind_empty(rows: &RowMap, kind: RowKind) -> bool
    ensures { IsKindEmptyIff (row_in rows.now) kind result }
{
    rows.first(kind).is_none()
}

impl<D: Disk> Server<D> {
    ghost use Rattle.std.specs.Prelude.{◌≢◌, ◌≤◌, List};
    ghost use Rattle.sn_account.specs.Sound.{IsSound};
    ghost use Rattle.sn_disk.specs.Disk.{LeavesOnly};
    ghost use Rattle.sn_rows.specs.declared.change.Change.{Change};
    ghost use Rattle.sn_server.specs.Beginning.{IsBegun};
    ghost use Rattle.sn_server.specs.Loads.{HasSome, IsEmpty, IsOpenError, StandsOrBegins, given_disk};
    ghost use Rattle.sn_server.specs.Stores.{IsOpen, server_disk, server_rows};
    ghost use Rattle.sn_journal.specs.declared.owner.Owner.TheVariants.{Server as ServerOwner};
    ghost use Rattle.sn_table.specs.Logs.{HasKinds, StandsFor, log_disk, log_owner};

    // Makes the first commit.
    fn begin(
        alloc: Global,
        log: Log<D>,
        rows: RowMap,
        secret: [u8; 32],
    ) -> Result<Server<D>, (D, ServerError)>
        requires owner { log_owner log ≡ ServerOwner }
        requires empty { IsEmpty (row_in rows) }
        ensures begins { (batches : List (List Change)) → (D.told → StandsFor log batches) → IfOk result (IsBegun IsOpen (record { rows = row_in rows; batches = batches }) secret) }
        ensures any_moment { D.told → (batches : List (List Change)) → StandsFor log batches →
            LeavesOnly D.moment D.left_since (log_disk log) (given_disk server_disk result) (StandsOrBegins (record { rows = row_in rows; batches = batches }) secret) }
        ensures still { IfErr result (λ refusal. refusal.1 ≢ ServerError.DiskFault → refusal.0 ≡ log_disk log) }
        ensures sound { IfOk result (λ server. IsSound (server_rows server)) }
        ensures refused { IfErr result (λ refusal. IsOpenError (row_in rows) (D.fault_count (log_disk log)) (D.fault_count refusal.0) refusal.1) }
        ensures grows { D.grows (log_disk log) (given_disk server_disk result) }
        ensures later { D.fault_count (log_disk log) ≤ D.fault_count (given_disk server_disk result) }
    {
        let Ok(changes) = first_changes(alloc, secret) else {
            return Err((log.close(), ServerError::Memory));
        };
        let Ok(state) = State::of_map(alloc, rows) else {
            return Err((log.close(), ServerError::Memory));
        };
        let server = Server { alloc, log, state };
        match server.commit(changes.as_slice()) {
            Committed::Done(server) => Ok(server),
            Committed::Refused(server, error) => match error {
                CommitError::Memory => Err((server.close(), ServerError::Memory)),
                CommitError::TooLarge { .. } => unreachable!(),
            },
            Committed::Broken(disk) => Err((disk, ServerError::DiskFault)),
        }
    }

    // Opens rows that are sound.
    fn check(alloc: Global, log: Log<D>, rows: RowMap) -> Result<Server<D>, (D, ServerError)>
        requires owner { log_owner log ≡ ServerOwner }
        requires kinds { HasKinds rows }
        requires some { HasSome (row_in rows) }
        ensures opens { (batches : List (List Change)) → (D.told → StandsFor log batches) → IfOk result (λ server. IsOpen server (record { rows = row_in rows; batches = batches })) }
        ensures still { given_disk server_disk result ≡ log_disk log }
        ensures sound { IfOk result (λ server. IsSound (server_rows server)) }
        ensures refused { IfErr result (λ refusal. IsOpenError (row_in rows) (D.fault_count (log_disk log)) (D.fault_count refusal.0) refusal.1) }
        ensures grows { D.grows (log_disk log) (given_disk server_disk result) }
        ensures later { D.fault_count (log_disk log) ≤ D.fault_count (given_disk server_disk result) }
    {
        let Ok(state) = State::of_map(alloc, rows) else {
            return Err((log.close(), ServerError::Memory));
        };
        match first_unsound(alloc, &state) {
            Ok(None) => Ok(Server { alloc, log, state }),
            Ok(Some(kind)) => Err((log.close(), ServerError::Rows { kind })),
            Err(_) => Err((log.close(), ServerError::Memory)),
        }
    }
}

// The changes of the first commit.
fn first_changes(alloc: Global, secret: [u8; 32]) -> Result<OwnedList<Change>, AllocError>
    ensures first { IfOk result (IsFirst secret) }
    ensures fits { IfOk result (λ changes. length (spelled changes) ≤ most_payload) }
{
    let _bytes = bytes_of(&secret);
    let mut changes = OwnedList::new(alloc);
    changes.push(put_first(secret))?;
    Ok(changes)
}

fn put_first(secret: [u8; 32]) -> Change
    ensures { PutsFirst secret result }
{
    let Some(store) = StoreRow::new(secret, 0, 0) else {
        unreachable!()
    };
    Change::Put(Row {
        key: Key::Store,
        value: Value::Store(store),
    })
}

// The secret's bytes, of which there are 32.
fn bytes_of(secret: &[u8; 32]) -> &[u8]
    ensures is { result.now ≡ secret.now }
    ensures size { length result.now ≡ 32 }
{
    secret
}
