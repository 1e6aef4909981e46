//! A server and its devices in memory, and the calls of the devices as events.

ghost use Rattle.std.specs.Prelude.{◌≡◌, ◌++◌, List, ℕ, codes, IfOk, OnOk};
ghost use Rattle.rand_chacha.specs.ChaCha.{ChaCha};
ghost use Rattle.sn_device.specs.Runs.{a_uuid, delete, edit, nothing, passwd, put, register, sign_in, sync};
ghost use Rattle.sn_events.specs.Begins.{HasBegun};
ghost use Rattle.sn_events.specs.Calling.{host};
ghost use Rattle.sn_events.specs.Events.{AgainCame, AsksReadable, CallCame};
ghost use Rattle.sn_events.specs.Slots.{device_slot, server_slot, slot_mark};
ghost use Rattle.sn_events.specs.Standing.{Stands};
ghost use Rattle.sn_device.specs.Asking.{IsRequestBytes};
ghost use Rattle.sn_disk.specs.MemShelf.{shelf_slot};
ghost use Rattle.sn_disk.specs.Shelf.{unknown};
ghost use Rattle.sn_journal.specs.declared.owner.Owner.TheVariants.{Device as DeviceOwner, Server as ServerOwner};
ghost use Rattle.sn_laws.specs.Lookups.{Bytes};
ghost use Rattle.sn_link.specs.Laws.{IsReadable};
ghost use Rattle.sn_passwd.specs.Calls.{IsOnlyAsked};
ghost use Rattle.sn_tail.specs.Shelves.{SlotReads};
ghost use Rattle.sn_world.specs.World.{IsMade, Made};
ghost use Rattle.sn_laws.specs.declared.ideal.Ideal.{Ideal};
ghost use Rattle.sn_rows.specs.Bounds.{HasLength};
ghost use Rattle.sn_string.specs.Bounds.{IsIdentifier};
ghost use Rattle.sn_world.specs.Calls.{IsOnlyOf};
ghost use Rattle.sn_world.specs.Holds.{TokensDiffer};
ghost use Rattle.sn_world.specs.World.{World};

use crate::beginning::{first_commit, fresh_server};
use crate::calling::{Calling, put_back};
use crate::devices::Devices;
use crate::late::{Redelivered, redeliver};
use crate::laws::{again_comes, calls_come, quiet_come};
use crate::marks::server_mark;
use crate::outcome::{Again, Begun, Outcome};
use crate::setting::Setting;
use crate::shelving::put_server;
use sn_disk::MemShelf;
use sn_items::Words;
use sn_link::{Held, Losses, ServingLink};
use sn_world::{holds_first, keeps_starting};
use std::alloc::{AllocError, Global};
use uuid::Uuid;

/// A server, and devices by their names, each on a disk in memory. An event is one call of a device at the server. It takes the
/// ends, and gives them back with what the call gave, or why it was refused; where memory was wanting, in the device, on a disk
/// or at the server, there are none any more.
#[derive(Drop)]
pub struct Ends {
    pub(crate) alloc: Global,
    pub(crate) link: ServingLink,
    // Of the gate behind the batches of the server's store.
    pub(crate) place: u64,
    pub(crate) devices: Devices,
}

impl Ends {
    /// A fresh server, which draws its secret from the words, and no device.
    pub fn begin(alloc: Global, words: &mut Words) -> Result<Begun, AllocError>
        ensures begun { IfOk result (HasBegun words.old words.new) }
    {
        holds_first();
        keeps_starting();
        let server = fresh_server(alloc, words)?;
        let (changes, place) = first_commit(alloc, &server)?;
        let ends = Ends {
            alloc,
            link: ServingLink::new(Held::Open(server), 0, Losses::none()),
            place,
            devices: Devices::new(alloc),
        };
        Ok(Begun { ends, changes })
    }

    /// Registers an account, of an identifier of 1 to 254 bytes. The time goes with the cost.
    pub fn register(
        self,
        setting: Setting,
        name: &str,
        words: &mut Words,
        identifier: &str,
        password: &str,
        cost: u32,
    ) -> Result<Outcome<()>, AllocError>
        requires identifier { IsIdentifier identifier.now }
        ensures came { (secret : Bytes) (w : World) (s : Ideal) → TokensDiffer secret → Stands self secret w s
            → AsksReadable (register identifier.now password.now cost) (w.devices name.now)
            → IfOk result (λ outcome. CallCame secret w s name.now (register identifier.now password.now cost) words.old words.new setting (λ given. nothing) self outcome) }
    {
        calls_come();
        let Calling {
            alloc,
            mut link,
            devices,
            device,
            place,
        } = self.calling(setting, name)?;
        let called = device.register(&mut link, words, identifier, password, cost);
        put_back(alloc, link, devices, place, name, called)
    }

    /// Signs in to an account. The time goes with the account's cost.
    pub fn sign_in(
        self,
        setting: Setting,
        name: &str,
        words: &mut Words,
        identifier: &str,
        password: &str,
    ) -> Result<Outcome<()>, AllocError>
        ensures came { (secret : Bytes) (w : World) (s : Ideal) → TokensDiffer secret → Stands self secret w s
            → IsOnlyOf s identifier.now password.now → AsksReadable (sign_in identifier.now password.now) (w.devices name.now)
            → IfOk result (λ outcome. CallCame secret w s name.now (sign_in identifier.now password.now) words.old words.new setting (λ given. nothing) self outcome) }
    {
        calls_come();
        let Calling {
            alloc,
            mut link,
            devices,
            device,
            place,
        } = self.calling(setting, name)?;
        let called = device.sign_in(&mut link, words, identifier, password);
        put_back(alloc, link, devices, place, name, called)
    }

    /// Puts a new item of this type and content, and gives its uuid. The type has 1 to 255 bytes.
    pub fn put(
        self,
        setting: Setting,
        name: &str,
        words: &mut Words,
        kind: &str,
        text: &str,
    ) -> Result<Outcome<Uuid>, AllocError>
        requires kind { HasLength 1 255 kind.now }
        ensures came { (secret : Bytes) (w : World) (s : Ideal) → TokensDiffer secret → Stands self secret w s
            → IfOk result (λ outcome. CallCame secret w s name.now (put kind.now text.now) words.old words.new setting a_uuid self outcome) }
    {
        quiet_come();
        let Calling {
            alloc,
            link,
            devices,
            device,
            place,
        } = self.calling(setting, name)?;
        let called = device.put(words, kind, text);
        put_back(alloc, link, devices, place, name, called)
    }

    /// Gives an item a new content.
    pub fn edit(
        self,
        setting: Setting,
        name: &str,
        words: &mut Words,
        uuid: Uuid,
        text: &str,
    ) -> Result<Outcome<()>, AllocError>
        ensures came { (secret : Bytes) (w : World) (s : Ideal) → TokensDiffer secret → Stands self secret w s
            → IfOk result (λ outcome. CallCame secret w s name.now (edit uuid text.now) words.old words.new setting (λ given. nothing) self outcome) }
    {
        quiet_come();
        let Calling {
            alloc,
            link,
            devices,
            device,
            place,
        } = self.calling(setting, name)?;
        let called = device.edit(words, uuid, text);
        put_back(alloc, link, devices, place, name, called)
    }

    /// Deletes an item.
    pub fn delete(self, setting: Setting, name: &str, uuid: Uuid) -> Result<Outcome<()>, AllocError>
        // It draws no words.
        ensures came { (secret : Bytes) (w : World) (s : Ideal) (words : ChaCha) → TokensDiffer secret → Stands self secret w s
            → IfOk result (λ outcome. CallCame secret w s name.now (delete uuid) words words setting (λ given. nothing) self outcome) }
    {
        quiet_come();
        let Calling {
            alloc,
            link,
            devices,
            device,
            place,
        } = self.calling(setting, name)?;
        let called = device.delete(uuid);
        put_back(alloc, link, devices, place, name, called)
    }

    /// Brings a device and the server together.
    pub fn sync(
        self,
        setting: Setting,
        name: &str,
        words: &mut Words,
    ) -> Result<Outcome<()>, AllocError>
        ensures came { (secret : Bytes) (w : World) (s : Ideal) → TokensDiffer secret → Stands self secret w s
            → IsOnlyAsked s (w.devices name.now) → AsksReadable sync (w.devices name.now)
            → IfOk result (λ outcome. CallCame secret w s name.now sync words.old words.new setting (λ given. nothing) self outcome) }
    {
        calls_come();
        let Calling {
            alloc,
            mut link,
            devices,
            device,
            place,
        } = self.calling(setting, name)?;
        let called = device.sync(&mut link, words);
        put_back(alloc, link, devices, place, name, called)
    }

    /// Changes the account's password to this one, with keys of this cost. The time goes with the cost. A change whose answer was
    /// lost is resolved first.
    pub fn passwd(
        self,
        setting: Setting,
        name: &str,
        words: &mut Words,
        password: &str,
        cost: u32,
    ) -> Result<Outcome<()>, AllocError>
        ensures came { (secret : Bytes) (w : World) (s : Ideal) → TokensDiffer secret → Stands self secret w s
            → IsOnlyAsked s (w.devices name.now) → AsksReadable (passwd password.now cost) (w.devices name.now)
            → IfOk result (λ outcome. CallCame secret w s name.now (passwd password.now cost) words.old words.new setting (λ given. nothing) self outcome) }
    {
        calls_come();
        let Calling {
            alloc,
            mut link,
            devices,
            device,
            place,
        } = self.calling(setting, name)?;
        let called = device.passwd(&mut link, words, password, cost);
        put_back(alloc, link, devices, place, name, called)
    }

    /// Delivers a request late or again, at this moment. No device hears the answer.
    pub fn again(self, now: u64, request: &[u8]) -> Result<Again, AllocError>
        ensures came { (secret : Bytes) (w : World) (s : Ideal) (m : Made) → TokensDiffer secret → Stands self secret w s → IsMade w m
            → IsRequestBytes host m.request request.now → IsReadable host m.request → IfOk result (AgainCame secret w s m now self) }
    {
        again_comes();
        let Ends {
            alloc,
            link,
            place,
            devices,
        } = self;
        let Redelivered {
            link,
            place,
            batches,
            status,
        } = redeliver(alloc, link, place, now, request)?;
        let ends = Ends {
            alloc,
            link,
            place,
            devices,
        };
        Ok(Again {
            ends,
            status,
            batches,
        })
    }

    /// The present mark of the server's disk.
    pub fn server_mark(&self) -> u64
        ensures { (secret : Bytes) (w : World) (s : Ideal) → Stands self.now secret w s
            → (result ≡ slot_mark (server_slot self.now)) × SlotReads (server_slot self.now) ServerOwner result w.server }
    {
        match self.link.held() {
            Some(held) => server_mark(held),
            None => 0,
        }
    }

    /// The present mark of the disk of the device of this name; 0 where it has none.
    pub fn device_mark(&self, name: &str) -> u64
        ensures { (secret : Bytes) (w : World) (s : Ideal) → Stands self.now secret w s
            → (result ≡ slot_mark (device_slot self.now name.now)) × SlotReads (device_slot self.now name.now) DeviceOwner result (w.devices name.now) }
    {
        self.devices.mark(name)
    }

    /// Puts the disks on a shelf without disks: the server's under `server`, and each device's under `device-` and its name.
    pub fn put_away(self, shelf: &mut MemShelf) -> Result<(), AllocError>
        requires fresh { (name : List ℕ) → shelf_slot shelf.old name ≡ unknown }
        ensures server { OnOk result (shelf_slot shelf.new (codes "server") ≡ server_slot self) }
        ensures devices { OnOk result ((name : List ℕ) → shelf_slot shelf.new (codes "device-" ++ name) ≡ device_slot self name) }
    {
        let Ends {
            alloc,
            link,
            devices,
            ..
        } = self;
        put_server(alloc, shelf, link)?;
        devices.put_away(shelf)
    }
}
