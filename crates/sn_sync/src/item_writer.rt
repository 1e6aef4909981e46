//! Items, written into a message's JSON token by token. As a value each would be a map, with a text for
//! each name and value in it.

ghost use Rattle.std.specs.Prelude.{◌≤◌, ℕ, List, OnOk, codes};
ghost use Rattle.serde_json.specs.Data.{Data, Items, array, string};
ghost use Rattle.sn_string.specs.Bounds.{last_stamp};
ghost use Rattle.sn_sync.specs.Appended.{AppendsMember, AppendsValue};
ghost use Rattle.sn_sync.specs.Stamps.{IsStampOrNone, IsStampText};
ghost use Rattle.sn_sync.specs.Written.{AreItemsData, IsCreatedData, IsItemData, item_data, uuid_data};

use crate::item::{Body, Item};
use crate::member_writer::{null_member, optional_member, text_member};
use crate::stamp::Stamp;
use json::Writer;
use sn_string::Text;
use std::alloc::AllocError;
use uuid::Uuid;

// What stands around an item's two strings takes some 200 bytes.
const ROOM_OF_ITEM: usize = 300;

/// About the room that some items take. A wrong guess costs time alone.
pub(crate) fn items_room(items: &[Item]) -> usize {
    let mut room = 0usize;
    for item in items {
        room = room.saturating_add(item_room(item));
    }
    room
}

/// About the room that an item takes.
pub(crate) fn item_room(item: &Item) -> usize {
    match &item.body {
        Body::Strings { content, enc } => content
            .len()
            .saturating_add(enc.len())
            .saturating_add(ROOM_OF_ITEM),
        Body::Deleted => ROOM_OF_ITEM,
    }
}

/// The list of some items, in order.
pub(crate) fn write_items(out: &mut Writer, items: &[Item]) -> Result<(), AllocError>
    ensures { OnOk result ((ds : Items) × AreItemsData items.now ds
        × AppendsValue out.old out.new (array ds)) }
{
    out.begin_array()?;
    for item in items {
        write_item(out, item)?;
    }
    out.end_array()
}

/// The object of an item.
pub(crate) fn write_item(out: &mut Writer, item: &Item) -> Result<(), AllocError>
    ensures { OnOk result ((d : Data) × IsItemData item.now d × AppendsValue out.old out.new d) }
{
    match &item.body {
        Body::Strings { content, enc } => write_kept(out, item, content, enc),
        Body::Deleted => write_deleted(out, item),
    }
}

fn write_kept(out: &mut Writer, item: &Item, content: &Text, enc: &Text) -> Result<(), AllocError>
    ensures { OnOk result ((created : Data) × IsCreatedData item.now.created created
        × AppendsValue out.old out.new
        (item_data created item.now (Body.Strings content.now enc.now))) }
{
    out.begin_object()?;
    text_member(out, "content", content)?;
    text_member(out, "content_type", &item.kind)?;
    created_member(out, item.created)?;
    out.key("deleted")?;
    out.boolean(false)?;
    text_member(out, "enc_item_key", enc)?;
    optional_member(out, "updated_at", &item.updated_at)?;
    uuid_member(out, item.uuid)?;
    out.end_object()
}

fn write_deleted(out: &mut Writer, item: &Item) -> Result<(), AllocError>
    ensures { OnOk result ((created : Data) × IsCreatedData item.now.created created
        × AppendsValue out.old out.new (item_data created item.now Body.Deleted)) }
{
    out.begin_object()?;
    null_member(out, "content")?;
    text_member(out, "content_type", &item.kind)?;
    created_member(out, item.created)?;
    out.key("deleted")?;
    out.boolean(true)?;
    null_member(out, "enc_item_key")?;
    optional_member(out, "updated_at", &item.updated_at)?;
    uuid_member(out, item.uuid)?;
    out.end_object()
}

fn created_member(out: &mut Writer, created: Option<u64>) -> Result<(), AllocError>
    requires { IsStampOrNone created }
    ensures { OnOk result ((d : Data) × IsCreatedData created d
        × AppendsMember out.old out.new (codes "created_at") d) }
{
    match created {
        Some(stamp) => stamp_member(out, stamp),
        None => null_member(out, "created_at"),
    }
}

fn stamp_member(out: &mut Writer, stamp: u64) -> Result<(), AllocError>
    requires { stamp ≤ last_stamp }
    ensures { OnOk result ((text : List ℕ) × IsStampText text stamp
        × AppendsMember out.old out.new (codes "created_at") (string text)) }
{
    let bytes = Stamp::bytes(stamp);
    out.key("created_at")?;
    out.string(Stamp::spelled(&bytes))
}

fn uuid_member(out: &mut Writer, uuid: Uuid) -> Result<(), AllocError>
    ensures { OnOk result (AppendsMember out.old out.new (codes "uuid") (uuid_data uuid)) }
{
    let mut buffer = Uuid::encode_buffer();
    let text = uuid.hyphenated().encode_lower(&mut buffer);
    out.key("uuid")?;
    out.string(text)
}
