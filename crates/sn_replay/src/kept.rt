//! The requests that devices ever made, for lines that deliver one of them late or again.

ghost use Rattle.std.specs.Prelude.{◌≡◌, ◌++◌, OnOk};
ghost use Rattle.sn_replay.specs.Keeping.{kept_all};

use sn_script::Ordinal;
use sn_string::{KeySet, OwnedList, TryClone};
use std::alloc::{AllocError, Global};
use std::collections::BTreeMap;

/// A request that a device made: its bytes, and the set that it would begin.
#[derive(Drop)]
pub(crate) struct Kept {
    pub(crate) request: OwnedList<u8>,
    pub(crate) begins: Option<KeySet>,
}

/// The requests of each device by its name, the first of them first.
#[derive(Drop)]
pub(crate) struct Requests {
    alloc: Global,
    made: BTreeMap<String, OwnedList<Kept>>,
}

impl Requests {
    ghost use Rattle.std.specs.Prelude.{◌≢◌, List, ℕ, []};
    ghost use Rattle.std.specs.Option.{option_copied};
    ghost use Rattle.sn_replay.specs.Keeping.{nth_of, requests_of};

    pub(crate) fn new(alloc: Global) -> Requests
        ensures { (name : List ℕ) → requests_of result name ≡ [] }
    {
        Requests {
            alloc,
            made: BTreeMap::new(alloc),
        }
    }

    /// Keeps the requests of a call, each with the set that it would begin, behind those that its device made before.
    pub(crate) fn add(
        &mut self,
        name: &str,
        requests: OwnedList<OwnedList<u8>>,
        begun: OwnedList<Option<KeySet>>,
    ) -> Result<(), AllocError>
        ensures own { OnOk result (requests_of self.new name.now ≡ requests_of self.old name.now ++ kept_all requests begun) }
        ensures others { (other : List ℕ) → other ≢ name.now → requests_of self.new other ≡ requests_of self.old other }
    {
        if requests.is_empty() {
            return Ok(());
        }
        let mut kept = self.take(name);
        keep_all(self.alloc, &mut kept, requests, begun.as_slice())?;
        self.put(name, kept)
    }

    /// The one that a number means, the first being 1.
    pub(crate) fn nth(&self, name: &str, which: Ordinal) -> Option<&Kept>
        ensures { option_copied result ≡ nth_of (requests_of self.now name.now) which }
    {
        let Ordinal::Nth(number) = which else {
            return None;
        };
        if number == 0 {
            return None;
        }
        match self.made.get(name) {
            Some(kept) => kept.as_slice().get((number - 1) as usize),
            None => None,
        }
    }

    // Takes those of a device out.
    fn take(&mut self, name: &str) -> OwnedList<Kept>
        ensures own { result ≡ requests_of self.old name.now }
        ensures others { (other : List ℕ) → other ≢ name.now → requests_of self.new other ≡ requests_of self.old other }
    {
        match self.made.remove(name) {
            Some(kept) => kept,
            None => OwnedList::new(self.alloc),
        }
    }

    // Puts those of a device back.
    fn put(&mut self, name: &str, kept: OwnedList<Kept>) -> Result<(), AllocError>
        ensures own { OnOk result (requests_of self.new name.now ≡ kept) }
        ensures others { (other : List ℕ) → other ≢ name.now → requests_of self.new other ≡ requests_of self.old other }
    {
        let key = name.to_string(self.alloc)?;
        match self.made.insert(key, kept) {
            Ok(_) => Ok(()),
            Err(_) => Err(AllocError),
        }
    }
}

// Requests behind others, each with the set that it would begin.
fn keep_all(
    alloc: Global,
    kept: &mut OwnedList<Kept>,
    requests: OwnedList<OwnedList<u8>>,
    begun: &[Option<KeySet>],
) -> Result<(), AllocError>
    ensures { OnOk result (kept.new ≡ kept.old ++ kept_all requests begun.now) }
{
    let mut place = 0usize;
    'requests: for request in requests.into_vec() {
        let Some(begins) = begun.get(place) else {
            return Ok(());
        };
        let begins = begins.try_clone(alloc)?;
        kept.push(Kept { request, begins })?;
        place += 1;
    }
    Ok(())
}
