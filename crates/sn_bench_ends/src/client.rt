//! A device in memory, and its calls.

ghost use Rattle.std.specs.Prelude.{IfSome};
ghost use Rattle.sn_client.specs.Calls.{IfStands, device_rows};
ghost use Rattle.sn_device.specs.States.{IsSound};

use crate::setting::{COST, IDENTIFIER, PASSWORD};
use sn_client::{Called, Device};
use sn_device::{Listed, Mark};
use sn_disk::MemDisk;
use sn_items::Words;
use sn_net::Link;
use std::alloc::Global;
use std::marker::Model;
use uuid::Uuid;

/// A device on a disk in memory, fit for any call. Behind a call that isn't answered there is none, and no further call is.
#[derive(Drop)]
pub(crate) struct Client {
    alloc: Global,
    device: Option<Box<Device<MemDisk>>>,
}

// Its rows are sound, whatever happens; no more of them is known.
impl Model for Client {
    ghost Value = { Unit {0} };

    ghost view = { λ _. tt };

    ghost invariant = { λ client. IfSome client.device (λ device. IsSound (device_rows device.value)) };
}

/// A disk without bytes.
pub(crate) fn empty_disk(alloc: Global) -> Option<MemDisk> {
    MemDisk::new(alloc, Vec::new(alloc), Vec::new(alloc)).ok()
}

impl Client {
    /// A device without an account.
    pub(crate) fn fresh(alloc: Global) -> Option<Client> {
        Client::load(alloc, empty_disk(alloc)?)
    }

    /// The device that is loaded again of its disk.
    pub(crate) fn reloaded(mut self) -> Option<Client> {
        let device = self.taken()?;
        Client::load(self.alloc, device.close())
    }

    fn load(alloc: Global, disk: MemDisk) -> Option<Client> {
        match Device::load(alloc, disk, COST) {
            Ok(device) => Some(Client {
                alloc,
                device: Some(Box::new(alloc, device).ok()?),
            }),
            Err(_) => None,
        }
    }

    // Takes the device out, for a call.
    fn taken(&mut self) -> Option<Device<MemDisk>>
        ensures { IfSome result (λ device. IsSound (device_rows device)) }
    {
        Some(Box::into_inner(self.device.take()?))
    }

    // Puts the device back behind a call, and gives what that gave.
    fn answered<T: Drop>(&mut self, called: Called<Device<MemDisk>, MemDisk, T>) -> Option<T>
        requires { IfStands called (λ device. IsSound (device_rows device)) }
    {
        match called {
            Called::Done(device, given) => {
                self.device = Some(Box::new(self.alloc, device).ok()?);
                Some(given)
            }
            _ => None,
        }
    }

    pub(crate) fn register<L: Link>(&mut self, link: &mut L, words: &mut Words) -> Option<()> {
        let device = self.taken()?;
        self.answered(device.register(link, words, IDENTIFIER, PASSWORD, COST))
    }

    pub(crate) fn sign_in<L: Link>(&mut self, link: &mut L, words: &mut Words) -> Option<()> {
        let device = self.taken()?;
        self.answered(device.sign_in(link, words, IDENTIFIER, PASSWORD))
    }

    /// Puts a note.
    pub(crate) fn put(&mut self, words: &mut Words, content: &str) -> Option<Uuid> {
        let device = self.taken()?;
        self.answered(device.put(words, "Note", content))
    }

    pub(crate) fn edit(&mut self, words: &mut Words, item: Uuid, content: &str) -> Option<()> {
        let device = self.taken()?;
        self.answered(device.edit(words, item, content))
    }

    pub(crate) fn sync<L: Link>(&mut self, link: &mut L, words: &mut Words) -> Option<()> {
        let device = self.taken()?;
        self.answered(device.sync(link, words))
    }

    /// How many of its items are without a draft, and open.
    pub(crate) fn clean(&self) -> Option<u64> {
        let Some(device) = &self.device else {
            return None;
        };
        match device.list() {
            Ok(lines) => Some(clean_in(lines.as_slice())),
            Err(_) => None,
        }
    }
}

fn clean_in(lines: &[Listed]) -> u64 {
    lines.iter().filter(|line| line.mark == Mark::Clean).count() as u64
}
