//! Reading the first message of what is left.
ghost use Rattle.std.specs.Prelude.{◌≡◌, ◌≢◌, ◌⊎◌, ◌+◌, ◌<◌, ◌≤◌, ◌^◌, ◌-◌, ◌++◌, [], ℕ, List, length, take, drop, min, max, true, false, Ok, IfOk, IfErr, IsErrOf};
ghost use Rattle.std.specs.Io.KnownBytes.{Keeps, Consumes, IsAtEnd};
ghost use Rattle.sn_io.specs.Causes.{Rose};
ghost use Rattle.sn_http.specs.Blanks.{IsBlank};
ghost use Rattle.sn_http.specs.Heads.{unread, HasNoHead, NeverHasHead};
ghost use Rattle.sn_http.specs.Found.{IsHeadAt, IfHead, IsNotYet, IsNever};
ghost use Rattle.sn_http.specs.Messages.{IsMessage, IsHeadless, IsCheck, OfTold, FillsTo, Takes, TakesFrom, IfMessage, IfCheck, IfNoMessage, IsMessageOrMemory};

use crate::carry::{Carry, FillError, HEAD_LIMIT};
use crate::head::{Found, Head, head_in};
use crate::trigger::{may_end_past, skip_blank};
use sn_io::Source;
use sn_string::Bytes;
use std::alloc::Global;

/// A request as it came.
#[derive(Debug, Drop)]
pub struct Message {
    pub method: Bytes,
    pub target: Bytes,
    /// The token of its credentials, or nothing.
    pub token: Bytes,
    pub body: Bytes,
    /// Whether the connection is to close behind the answer.
    pub closing: bool,
    /// At which byte of the input it begins.
    pub place: u64,
}

/// What came.
#[derive(Debug, Drop)]
pub enum Incoming {
    Message(Message),
    /// The message that begins at this place fails a check, which this status tells. Nothing behind it can be read.
    Check { status: u16, place: u64 },
    /// The input is over before a message's first byte.
    End,
    /// The source failed. Nothing is lost.
    ReadFault,
    /// Out of memory. Nothing is lost.
    Memory,
}

// Whether so many bytes are there.
#[derive(Clone, Copy, Debug)]
pub(crate) enum Filled {
    Whole,
    Over,
}

// Why no head came.
#[derive(Clone, Copy, Debug)]
pub(crate) enum NoHead {
    Broken,
    End,
    Failed,
    Memory,
}

impl From<FillError> for NoHead {
    ghost use Rattle.sn_http.specs.Causes.{no_head_of};

    ghost from_gives = { λ e n. n ≡ no_head_of e };

    fn from(error: FillError) -> NoHead {
        match error {
            FillError::Failed => NoHead::Failed,
            FillError::Memory => NoHead::Memory,
        }
    }
}

// Parses only where a head may end behind the bytes that were seen before.
fn look(alloc: Global, front: &[u8], seen: usize, blank: usize) -> Found
    requires blank { IsBlank blank front.now }
    requires short { length front.now ≤ 16384 }
    requires seen { seen ≤ length front.now }
    requires none { HasNoHead (take seen front.now) }
    ensures head { IfHead result (IsHeadAt front.now) }
    ensures not_yet { IsNotYet result → HasNoHead front.now }
    ensures never { IsNever result → NeverHasHead front.now × (0 < length front.now) }
{
    if blank == front.len() {
        return Found::NotYet;
    }
    if may_end_past(front, seen) {
        head_in(alloc, front)
    } else {
        Found::NotYet
    }
}

// Reads until a head stands in the first 16,384 bytes.
fn read_head<S: Source>(alloc: Global, source: &mut S, carry: &mut Carry) -> Result<Head, NoHead>
    ensures kept { Keeps (unread carry.old (S.left source.old)) (unread carry.new (S.left source.new)) }
    ensures place { carry.new.place ≡ carry.old.place }
    ensures ahead { IfOk result (λ head. length carry.new.bytes ≤ max (head.len + 4095) (length carry.old.bytes)) }
    ensures head { IfOk result (IsHeadAt (take 16384 carry.new.bytes)) }
    ensures broken { IsErrOf result NoHead.Broken → OfTold (unread carry.new (S.left source.new)) IsHeadless }
    ensures bounded { length carry.new.bytes ≤ max 20479 (length carry.old.bytes) }
    ensures end { IsErrOf result NoHead.End → OfTold (unread carry.new (S.left source.new)) (λ input. input ≡ []) }
    ensures fault { IsErrOf result NoHead.Failed → Rose (S.fault_count source.old) (S.fault_count source.new) }
    ensures later { S.fault_count source.old ≤ S.fault_count source.new }
{
    let mut seen = 0;
    let mut blank = 0;
    'reads: loop {
        let front = carry.front();
        let count = front.len();
        blank = skip_blank(front, blank);
        match look(alloc, front, seen, blank) {
            Found::Head(head) => return Ok(head),
            Found::Never => return Err(NoHead::Broken),
            Found::Memory => return Err(NoHead::Memory),
            Found::NotYet => {}
        }
        if count == HEAD_LIMIT {
            return Err(NoHead::Broken);
        }
        seen = count;
        if carry.fill(source)? == 0 {
            if seen == 0 {
                return Err(NoHead::End);
            }
            return Err(NoHead::Broken);
        }
    }
}

// Reads until so many bytes are there, or the input is over.
fn fill_to<S: Source>(source: &mut S, carry: &mut Carry, count: usize) -> Result<Filled, FillError>
    ensures kept { Keeps (unread carry.old (S.left source.old)) (unread carry.new (S.left source.new)) }
    ensures place { carry.new.place ≡ carry.old.place }
    ensures ahead { length carry.new.bytes ≤ max (count + 4095) (length carry.old.bytes) }
    ensures grown { (more : List ℕ) × (carry.new.bytes ≡ carry.old.bytes ++ more) }
    ensures ends { IfOk result (FillsTo count carry.new.bytes (S.left source.new)) }
    ensures fault { IsErrOf result FillError.Failed → Rose (S.fault_count source.old) (S.fault_count source.new) }
    ensures later { S.fault_count source.old ≤ S.fault_count source.new }
{
    'reads: while carry.bytes().len() < count {
        if carry.fill(source)? == 0 {
            return Ok(Filled::Over);
        }
    }
    Ok(Filled::Whole)
}

/// Reads the first message of what is left. Bytes behind it stay in the carry.
pub fn read_message<S: Source>(alloc: Global, source: &mut S, carry: &mut Carry) -> Incoming
    ensures message { IfMessage result (λ message. Takes (unread carry.old (S.left source.old)) (unread carry.new (S.left source.new)) carry.old.place carry.new.place message) }
    // At most one block less one byte is read past the message.
    ensures ahead { IfMessage result (λ message. length carry.new.bytes ≤ max 4095 (length carry.old.bytes)) }
    ensures check { IfCheck result (λ status place. (place ≡ carry.old.place) × OfTold (unread carry.old (S.left source.old)) (IsCheck status)) }
    ensures end { result ≡ Incoming.End → OfTold (unread carry.old (S.left source.old)) (λ input. input ≡ []) }
    ensures fault { result ≡ Incoming.ReadFault → Rose (S.fault_count source.old) (S.fault_count source.new) }
    // No byte is lost where no message comes.
    ensures stays { IfNoMessage result (Keeps (unread carry.old (S.left source.old)) (unread carry.new (S.left source.new)) × (carry.new.place ≡ carry.old.place)) }
    // A head, a body and a block less one byte are kept at most, whatever the peer sends.
    ensures bounded { length carry.new.bytes ≤ max 8409087 (length carry.old.bytes) }
    ensures later { S.fault_count source.old ≤ S.fault_count source.new }
{
    let place = carry.place();
    match read_head(alloc, source, carry) {
        Ok(head) => read_rest(alloc, source, carry, head),
        Err(NoHead::Broken) => Incoming::Check { status: 400, place },
        Err(NoHead::End) => Incoming::End,
        Err(NoHead::Failed) => Incoming::ReadFault,
        Err(NoHead::Memory) => Incoming::Memory,
    }
}

// Reads the body behind a head.
fn read_rest<S: Source>(alloc: Global, source: &mut S, carry: &mut Carry, head: Head) -> Incoming
    requires { IsHeadAt carry.old.bytes head }
    ensures ahead { IfMessage result (λ message. length carry.new.bytes ≤ max 4095 (length carry.old.bytes - head.len)) }
    ensures message { IfMessage result (λ message. Takes (unread carry.old (S.left source.old)) (unread carry.new (S.left source.new)) carry.old.place carry.new.place message) }
    ensures check { IfCheck result (λ status place. (place ≡ carry.old.place) × OfTold (unread carry.old (S.left source.old)) (IsCheck status)) }
    ensures end { result ≢ Incoming.End }
    ensures fault { result ≡ Incoming.ReadFault → Rose (S.fault_count source.old) (S.fault_count source.new) }
    ensures stays { IfNoMessage result (Keeps (unread carry.old (S.left source.old)) (unread carry.new (S.left source.new)) × (carry.new.place ≡ carry.old.place)) }
    ensures bounded { length carry.new.bytes ≤ max 8409087 (length carry.old.bytes) }
    ensures later { S.fault_count source.old ≤ S.fault_count source.new }
{
    let place = carry.place();
    let size = match head.body {
        Ok(size) => size,
        Err(status) => return Incoming::Check { status, place },
    };
    match fill_to(source, carry, head.len + size) {
        Ok(filled) => match filled {
            Filled::Whole => take_message(alloc, carry, head, size),
            Filled::Over => Incoming::Check { status: 400, place },
        },
        Err(FillError::Failed) => Incoming::ReadFault,
        Err(FillError::Memory) => Incoming::Memory,
    }
}

// Takes a message that is there.
fn take_message(alloc: Global, carry: &mut Carry, head: Head, size: usize) -> Incoming
    requires head { IsHeadAt carry.old.bytes head }
    requires size { head.body ≡ Ok size }
    requires there { head.len + size ≤ length carry.old.bytes }
    ensures message { IfMessage result (λ message. TakesFrom carry.old carry.new message) }
    ensures left { IfMessage result (λ message. carry.new.bytes ≡ drop (head.len + size) carry.old.bytes) }
    ensures memory { IsMessageOrMemory result }
    ensures stays { result ≡ Incoming.Memory → carry.new ≡ carry.old }
{
    let count = head.len + size;
    let Ok(body) = Bytes::of(alloc, &carry.bytes()[head.len..count]) else {
        return Incoming::Memory;
    };
    let place = carry.place();
    carry.take(count);
    Incoming::Message(Message {
        method: head.method,
        target: head.target,
        token: head.token,
        body,
        closing: head.closing,
        place,
    })
}
