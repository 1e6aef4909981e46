//! A server in memory, and the devices of one account that ask it.

ghost use Rattle.std.specs.Prelude.{IfSome};
ghost use Rattle.sn_account.specs.Sound.{IsSound};
ghost use Rattle.sn_server.specs.Stores.{server_rows};

use crate::client::{Client, empty_disk};
use crate::setting::SEED;
use sn_disk::MemDisk;
use sn_items::Words;
use sn_link::{Held, Losses, ServingLink};
use sn_server::Server;
use std::alloc::Global;
use uuid::Uuid;

/// The moment that the server's clock gives.
const NOW: u64 = 1_700_000_000_000_000;

/// The link to a server, a device of an account there, and the items that this device has put.
#[derive(Drop)]
pub(crate) struct Ends {
    alloc: Global,
    link: Box<ServingLink>,
    words: Words,
    device: Client,
    items: Vec<Uuid>,
}

impl Ends {
    /// A fresh server and a device that has registered there.
    pub(crate) fn begin(alloc: Global) -> Option<Ends> {
        let mut words = Words::from_seed(SEED);
        let mut link = fresh_link(alloc, &mut words)?;
        let mut device = Client::fresh(alloc)?;
        device.register(&mut *link, &mut words)?;
        Some(Ends {
            alloc,
            link,
            words,
            device,
            items: Vec::new(alloc),
        })
    }

    /// The device puts so many notes of one content.
    pub(crate) fn put(&mut self, content: &str, count: u64) -> Option<()> {
        'notes: for _ in 0..count {
            let item = self.device.put(&mut self.words, content)?;
            self.items.push(item).ok()?;
        }
        Some(())
    }

    /// How many notes it has put.
    pub(crate) fn count(&self) -> u64 {
        self.items.len() as u64
    }

    /// The device gives this content to the first so many of them.
    pub(crate) fn edit(&mut self, content: &str, drafts: usize) -> Option<()> {
        'items: for item in self.items.iter().take(drafts) {
            self.device.edit(&mut self.words, *item, content)?;
        }
        Some(())
    }

    pub(crate) fn sync(&mut self) -> Option<()> {
        self.device.sync(&mut *self.link, &mut self.words)
    }

    /// The device is loaded again of its disk.
    pub(crate) fn reloaded(self) -> Option<Ends> {
        let Ends {
            alloc,
            link,
            words,
            device,
            items,
        } = self;
        let device = device.reloaded()?;
        Some(Ends {
            alloc,
            link,
            words,
            device,
            items,
        })
    }

    /// Another device, which signs in and gets what the server has.
    pub(crate) fn another(&mut self) -> Option<Client> {
        let mut device = Client::fresh(self.alloc)?;
        device.sign_in(&mut *self.link, &mut self.words)?;
        device.sync(&mut *self.link, &mut self.words)?;
        Some(device)
    }

    pub(crate) fn device(&self) -> &Client {
        &self.device
    }
}

// A link to a server on an empty disk.
fn fresh_link(alloc: Global, words: &mut Words) -> Option<Box<ServingLink>> {
    let server = fresh_server(alloc, words)?;
    let link = ServingLink::new(Held::Open(server), NOW, Losses::none());
    Box::new(alloc, link).ok()
}

fn fresh_server(alloc: Global, words: &mut Words) -> Option<Server<MemDisk>>
    ensures { IfSome result (λ server. IsSound (server_rows server)) }
{
    match Server::load(alloc, empty_disk(alloc)?, words) {
        Ok(server) => Some(server),
        Err(_) => None,
    }
}
