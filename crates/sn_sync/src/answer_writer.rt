//! Writing answers.

ghost use Rattle.std.specs.Prelude.{◌≡◌, All, IfOk, OnOk, codes, string_bytes};
ghost use Rattle.serde_json.specs.Data.{Data, Items, array, member, no_members, object, string};
ghost use Rattle.serde_json.specs.View.{view};
ghost use Rattle.sn_sync.specs.Appended.{AppendsValue};
ghost use Rattle.sn_sync.specs.declared.answer.More.TheVariants as further;
ghost use Rattle.sn_sync.specs.Written.{AreConflictsData, AreItemsData, IsAnswerData, IsConflictData, IsItemData, WritesAnswer, error_data, synced_data};

use crate::answer::{Answer, Conflict, More};
use crate::item::Item;
use crate::item_writer::{item_room, items_room, write_item, write_items};
use crate::json_texts::{json_text, written_text};
use crate::member_writer::{optional_member, text_member};
use json::Writer;
use serde_json::{Value, json};
use sn_string::{Text, params_value, uuid_text};
use std::alloc::{AllocError, Global};
use uuid::Uuid;

// What stands around an answer's lists takes some 150 bytes.
const ROOM_OF_ANSWER: usize = 200;

/// The body of an answer.
pub fn write_answer(alloc: Global, answer: &Answer) -> Result<String, AllocError>
    ensures { IfOk result (λ text. WritesAnswer answer.now (string_bytes text)) }
{
    let value = match answer {
        Answer::Sync {
            conflicts,
            cursor_token,
            retrieved,
            saved,
            sync_token,
        } => {
            return synced_text(
                alloc,
                conflicts.as_slice(),
                cursor_token,
                retrieved.as_slice(),
                saved.as_slice(),
                sync_token,
            );
        }
        Answer::Account {
            token,
            identifier,
            uuid,
        } => account_value(alloc, token, identifier, *uuid)?,
        Answer::Params(params) => params_value(alloc, params)?,
        Answer::Refused { tag, more, .. } => refused_value(alloc, tag, more)?,
    };
    json_text(alloc, &value)
}

fn account_value(
    alloc: Global,
    token: &Text,
    identifier: &Text,
    uuid: Uuid,
) -> Result<Value, AllocError>
    ensures { IfOk result (λ value.
        IsAnswerData (Answer.Account token.now identifier.now uuid) (view value)) }
{
    let uuid = uuid_text(alloc, uuid)?;
    json!(in alloc; {
        "token": token.as_str(),
        "user": { "email": identifier.as_str(), "uuid": uuid }
    })
}

fn synced_text(
    alloc: Global,
    conflicts: &[Conflict],
    cursor_token: &Option<Text>,
    retrieved: &[Item],
    saved: &[Item],
    sync_token: &Text,
) -> Result<String, AllocError>
    ensures { IfOk result (λ text. WritesAnswer
        (Answer.Sync conflicts.now cursor_token.now retrieved.now saved.now sync_token.now)
        (string_bytes text)) }
{
    let room = conflicts_room(conflicts)
        .saturating_add(items_room(retrieved))
        .saturating_add(items_room(saved))
        .saturating_add(ROOM_OF_ANSWER);
    let mut out = Writer::new(Vec::with_capacity(alloc, room)?);
    write_synced(
        &mut out,
        conflicts,
        cursor_token,
        retrieved,
        saved,
        sync_token,
    )?;
    Ok(written_text(out))
}

fn conflicts_room(conflicts: &[Conflict]) -> usize {
    let mut room = 0usize;
    for conflict in conflicts {
        let item = match conflict {
            Conflict::Sync { server } => server,
            Conflict::Uuid { unsaved } | Conflict::Content { unsaved } => unsaved,
        };
        room = room.saturating_add(item_room(item));
    }
    room
}

fn write_synced(
    out: &mut Writer,
    conflicts: &[Conflict],
    cursor_token: &Option<Text>,
    retrieved: &[Item],
    saved: &[Item],
    sync_token: &Text,
) -> Result<(), AllocError>
    ensures { OnOk result ((cs gs ss : Items) × AreConflictsData conflicts.now cs
        × AreItemsData retrieved.now gs × AreItemsData saved.now ss
        × AppendsValue out.old out.new
        (synced_data cs cursor_token.now gs ss sync_token.now)) }
{
    out.begin_object()?;
    out.key("conflicts")?;
    write_conflicts(out, conflicts)?;
    optional_member(out, "cursor_token", cursor_token)?;
    out.key("retrieved_items")?;
    write_items(out, retrieved)?;
    out.key("saved_items")?;
    write_items(out, saved)?;
    text_member(out, "sync_token", sync_token)?;
    out.end_object()
}

fn write_conflicts(out: &mut Writer, conflicts: &[Conflict]) -> Result<(), AllocError>
    ensures { OnOk result ((ds : Items) × AreConflictsData conflicts.now ds
        × AppendsValue out.old out.new (array ds)) }
{
    out.begin_array()?;
    for conflict in conflicts {
        write_conflict(out, conflict)?;
    }
    out.end_array()
}

fn write_conflict(out: &mut Writer, conflict: &Conflict) -> Result<(), AllocError>
    ensures { OnOk result ((d : Data) × IsConflictData conflict.now d
        × AppendsValue out.old out.new d) }
{
    match conflict {
        Conflict::Sync { server } => write_sync_conflict(out, server),
        Conflict::Uuid { unsaved } => write_unsaved(out, unsaved, "uuid_conflict"),
        Conflict::Content { unsaved } => write_unsaved(out, unsaved, "content_error"),
    }
}

fn write_sync_conflict(out: &mut Writer, server: &Item) -> Result<(), AllocError>
    ensures { OnOk result ((inner : Data) × IsItemData server.now inner
        × AppendsValue out.old out.new (object (member (codes "server_item") inner
        (member (codes "type") (string (codes "sync_conflict")) no_members)))) }
{
    out.begin_object()?;
    out.key("server_item")?;
    write_item(out, server)?;
    out.key("type")?;
    out.string("sync_conflict")?;
    out.end_object()
}

fn write_unsaved(out: &mut Writer, unsaved: &Item, conflict: &str) -> Result<(), AllocError>
    ensures { OnOk result ((inner : Data) × IsItemData unsaved.now inner
        × AppendsValue out.old out.new (object (member (codes "type") (string conflict.now)
        (member (codes "unsaved_item") inner no_members)))) }
{
    out.begin_object()?;
    out.key("type")?;
    out.string(conflict)?;
    out.key("unsaved_item")?;
    write_item(out, unsaved)?;
    out.end_object()
}

fn refused_value(alloc: Global, tag: &Text, more: &More) -> Result<Value, AllocError>
    ensures { IfOk result (λ value. view value
        ≡ object (member (codes "error") (error_data tag.now more.now) no_members)) }
{
    let error = error_value(alloc, tag.as_str(), more)?;
    json!(in alloc; { "error": error })
}

fn error_value(alloc: Global, tag: &str, more: &More) -> Result<Value, AllocError>
    ensures { IfOk result (λ value. view value ≡ error_data tag.now more.now) }
{
    match more {
        More::Nothing => json!(in alloc; { "tag": tag }),
        More::Name(name) => name_value(alloc, tag, name.as_str()),
        More::Number(number) => number_value(alloc, tag, *number),
        More::Uuid(uuid) => uuid_value(alloc, tag, *uuid),
        More::Both(number, uuid) => both_value(alloc, tag, *number, *uuid),
    }
}

fn name_value(alloc: Global, tag: &str, name: &str) -> Result<Value, AllocError>
    ensures { IfOk result (λ value. view value ≡ error_data tag.now (further.Name name.now)) }
{
    json!(in alloc; { "name": name, "tag": tag })
}

fn number_value(alloc: Global, tag: &str, number: u64) -> Result<Value, AllocError>
    ensures { IfOk result (λ value. view value ≡ error_data tag.now (further.Number number)) }
{
    json!(in alloc; { "number": number, "tag": tag })
}

fn uuid_value(alloc: Global, tag: &str, uuid: Uuid) -> Result<Value, AllocError>
    ensures { IfOk result (λ value. view value ≡ error_data tag.now (further.Uuid uuid)) }
{
    let uuid = uuid_text(alloc, uuid)?;
    json!(in alloc; { "tag": tag, "uuid": uuid })
}

fn both_value(alloc: Global, tag: &str, number: u64, uuid: Uuid) -> Result<Value, AllocError>
    ensures { IfOk result (λ value. view value ≡ error_data tag.now (further.Both number uuid)) }
{
    let uuid = uuid_text(alloc, uuid)?;
    json!(in alloc; {
        "number": number,
        "tag": tag,
        "uuid": uuid
    })
}
