//! Labels of items.

ghost use Rattle.std.specs.Prelude.{◌≡◌, ◌↔◌, ◌<◌, ◌++◌, ℕ, List, [], ◌∷◌, Some, None, length, drop, string_bytes, IfOk, OnOk, OnErr, IsTrue, MatchOption};
ghost use Rattle.std.specs.Fmt.{decimal};
ghost use Rattle.sn_report.specs.Labels.{is_labelled, item_at, items_of, label_from, labelled, label_at, relabelled};
ghost use Rattle.sn_report.specs.Numbers.{AreNumbers, IsUuidBytes};

use sn_string::uuid_of;
use std::alloc::{AllocError, Global};
use std::collections::BTreeMap;
use std::fmt::Write;
use std::marker::Model;
use uuid::Uuid;

// How many bytes the text of a uuid has.
const UUID_LEN: usize = 36;

/// Labels of items, in the order in which they were made: the first is `#1`. An item may have several,
/// and is printed under the least. A contract sees the list of the uuids that they were made for.
#[derive(Drop)]
pub struct Labels {
    made: Vec<Uuid>,
    numbers: BTreeMap<Uuid, u64>,
}

impl Model for Labels {
    ghost Value = { List (List ℕ) };

    ghost view = { λ l. l.made.items };

    ghost invariant = { λ l. AreNumbers l.made.items l.numbers };
}

impl Labels {
    /// No labels. Takes no memory.
    pub fn new(alloc: Global) -> Labels
        ensures { result ≡ [] }
    {
        Labels {
            made: Vec::new(alloc),
            numbers: BTreeMap::new(alloc),
        }
    }

    /// The item of each label, the first label's first.
    pub fn as_slice(&self) -> &[Uuid]
        ensures { result.now ≡ self.now }
    {
        self.made.as_slice()
    }

    /// How many labels there are.
    pub fn len(&self) -> usize
        ensures { result ≡ length self.now }
    {
        self.made.len()
    }

    pub fn is_empty(&self) -> bool
        ensures { IsTrue result ↔ (length self.now ≡ 0) }
    {
        self.made.is_empty()
    }

    pub fn is_labelled(&self, uuid: &Uuid) -> bool
        ensures { result ≡ is_labelled self.now uuid.now }
    {
        self.numbers.contains_key(uuid)
    }

    /// The item of the label with this number.
    pub fn item(&self, number: u64) -> Option<Uuid>
        ensures { result ≡ item_at self.now number }
    {
        if number == 0 {
            return None;
        }
        self.made.get((number - 1) as usize).copied()
    }

    /// The labelled items, each once, in the order of their least labels.
    pub fn items(&self, alloc: Global) -> Result<Vec<Uuid>, AllocError>
        ensures { IfOk result (λ items. items.items ≡ items_of self.now) }
    {
        let made = self.as_slice();
        let mut items = Vec::new(alloc);
        for (place, uuid) in made.iter().enumerate() {
            if self.label(uuid) == place as u64 + 1 {
                items.push(*uuid)?;
            }
        }
        Ok(items)
    }

    /// The number of an item's least label. An item without one would have the next.
    pub fn label(&self, uuid: &Uuid) -> u64
        ensures { result ≡ label_from 1 self.now uuid.now }
    {
        match self.numbers.get(uuid) {
            Some(number) => *number,
            None => self.made.len() as u64 + 1,
        }
    }

    /// Gives an item the next label, also where it has one.
    pub fn add(&mut self, uuid: Uuid) -> Result<(), AllocError>
        ensures added { OnOk result (self.new ≡ labelled self.old uuid) }
        ensures refused { OnErr result (self.new ≡ self.old) }
    {
        let labelled = self.is_labelled(&uuid);
        let _known = of_bytes(uuid.as_bytes());
        let number = self.made.len() as u64 + 1;
        self.made.push(uuid)?;
        if labelled {
            return Ok(());
        }
        match self.numbers.insert(uuid, number) {
            Ok(_) => Ok(()),
            Err(_) => {
                self.made.pop();
                Err(AllocError)
            }
        }
    }

    // The number of the labelled item whose uuid stands at the front of a text, and what stands behind
    // the uuid.
    fn front<'t>(&self, text: &'t str) -> Option<(u64, &'t str)>
        ensures label { MatchOption result (label_at self.now self.now text.now ≡ None)
            (λ found. label_at self.now self.now text.now ≡ Some (35 ∷ decimal found.0)) }
        ensures behind { MatchOption result (Unit {0}) (λ found. found.1.now ≡ drop 36 text.now) }
        ensures shorter { MatchOption result (Unit {0}) (λ found. length found.1.now < length text.now) }
    {
        let numbers = &self.numbers;
        let Some((front, behind)) = text.split_at_checked(UUID_LEN) else {
            return None;
        };
        let Some(uuid) = uuid_of(front) else {
            return None;
        };
        match numbers.get(&uuid) {
            Some(number) => Some((*number, behind)),
            None => None,
        }
    }

    // Writes the label that stands for the front of a text, or else its first character, and gives
    // what stands behind.
    fn write_front<'t>(&self, printed: &mut String, text: &'t str) -> Result<&'t str, AllocError>
        requires { 0 < length text.now }
        ensures written { IfOk result (λ behind. string_bytes printed.new ++ relabelled self.now behind.now
            ≡ string_bytes printed.old ++ relabelled self.now text.now) }
        ensures shorter { IfOk result (λ behind. length behind.now < length text.now) }
    {
        if let Some((number, behind)) = self.front(text) {
            write!(printed, "#{number}")?;
            return Ok(behind);
        }
        let mut characters = text.chars();
        let Some(character) = characters.next() else {
            unreachable!();
        };
        printed.push(character)?;
        Ok(characters.as_str())
    }

    /// A text with the label in place of each labelled uuid, read from the left. A uuid in upper case
    /// is none.
    pub fn relabelled(&self, alloc: Global, text: &str) -> Result<String, AllocError>
        ensures { IfOk result (λ printed. string_bytes printed ≡ relabelled self.now text.now) }
    {
        let mut printed = String::new(alloc);
        let mut rest = text;
        'fronts: while !rest.is_empty() {
            rest = self.write_front(&mut printed, rest)?;
        }
        Ok(printed)
    }
}

// The uuid of sixteen bytes.
fn of_bytes(bytes: &[u8; 16]) -> Uuid
    ensures sixteen { IsUuidBytes result }
    ensures same { result ≡ bytes.now }
{
    Uuid::from_bytes(*bytes)
}
