// The batches of a file.
ghost use Rattle.std.specs.Prelude.{◌≡◌, ◌↔◌, ◌⊎◌, ◌++◌, List, ℕ, length, IsTrue, IfOk, IfErr, IfSome, IfNone};
ghost use Rattle.sn_journal.specs.Image.{batch, IsClosed, IsBounded};
ghost use Rattle.std.specs.List.{flat_map};
ghost use Rattle.sn_journal.specs.Reading.{IsBatches, IsWhole, IsBroken, IsBrokenAt};

use std::marker::Model;

/// The most bytes of a payload.
pub const MOST_PAYLOAD: usize = 1 << 30;

/// Reads batches, one payload after the other. A contract sees the bytes that are left.
#[derive(Debug, Drop)]
pub struct Payloads<'a> {
    rest: &'a [u8],
}

impl<'a> Model for Payloads<'a> {
    ghost Value = { List ℕ };

    ghost view = { λ p. p.rest.now };
}

impl<'a> Payloads<'a> {
    pub(crate) fn of(bytes: &'a [u8]) -> Payloads<'a>
        ensures { result ≡ bytes.now }
    {
        Payloads { rest: bytes }
    }

    fn rest(&self) -> &'a [u8]
        ensures { result.now ≡ self.now }
    {
        self.rest
    }

    /// The payload of the next batch, where a whole one stands behind an open gate.
    pub fn next(&mut self) -> Option<&'a [u8]>
        ensures some { IfSome result (λ payload. (self.old ≡ batch payload.now ++ self.new) × IsBounded payload.now) }
        ensures none { IfNone result ((self.new ≡ self.old) × (IsClosed self.old ⊎ IsBroken self.old)) }
    {
        let rest = self.rest;
        let size = whole_batch(rest)?;
        self.rest = &rest[5 + size..];
        Some(&rest[5..5 + size])
    }
}

/// A gate at this place is missing, or is open before no whole batch.
#[derive(Clone, Copy, Debug, PartialEq, Eq)]
pub(crate) struct Broken {
    pub(crate) place: usize,
}

/// How many batches there are, and the place of the closed gate behind them.
pub(crate) fn closed_gate(bytes: &[u8]) -> Result<(u64, usize), Broken>
    ensures ok { IfOk result (λ found. (payloads : List (List ℕ)) × IsBatches bytes.now payloads × (found.0 ≡ length payloads) × (found.1 ≡ length (flat_map batch payloads))) }
    ensures err { IfErr result (λ broken. IsBrokenAt bytes.now broken.place) }
{
    let mut payloads = Payloads::of(bytes);
    let mut count: u64 = 0;
    'batches: while let Some(_payload) = payloads.next() {
        count += 1;
    }
    let rest = payloads.rest();
    let end = bytes.len() - rest.len();
    if is_closed(rest) {
        Ok((count, end))
    } else {
        Err(Broken { place: end })
    }
}

// The size of the payload behind an open gate, where the batch is whole.
fn whole_batch(bytes: &[u8]) -> Option<usize>
    ensures some { IfSome result (λ size. IsWhole bytes.now size) }
    ensures none { IfNone result (IsClosed bytes.now ⊎ IsBroken bytes.now) }
{
    let [1, a, b, c, d, after @ ..] = bytes else {
        return None;
    };
    let size = u32::from_be_bytes([*a, *b, *c, *d]) as usize;
    if size > MOST_PAYLOAD || size > after.len() {
        return None;
    }
    Some(size)
}

fn is_closed(bytes: &[u8]) -> bool
    ensures { IsTrue result ↔ IsClosed bytes.now }
{
    match bytes {
        [] => false,
        [gate, ..] => *gate != 1,
    }
}
