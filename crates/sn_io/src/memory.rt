// A source, a sink and a giver of seeds in memory, which fail at the calls that are listed.
ghost use Rattle.std.specs.Prelude.{◌≡◌, ◌≤◌, ◌<◌, ◌↔◌, [], length, min, IsTrue, IsErr, IfOk, OnOk, OnErr, Some};
ghost use Rattle.std.specs.Io.{ReadsAtMost};
ghost use Rattle.std.specs.Io.KnownBytes.{ReadConsumes, WriteAppends};
ghost use Rattle.sn_io.specs.Causes.{CountsFailure};
ghost use Rattle.sn_io.specs.FaultPlan.{fresh, is_listed, began, wanted, after_fault};
ghost use Rattle.sn_io.specs.Seeds.{seed_at};
ghost use Rattle.sn_io.specs.Streams.{TakesSome};

use crate::{Failed, FaultPlan, Seeds, Sink, Source};
use std::alloc::Global;

/// Gives bytes, a piece at a time. Exactly the calls that are listed fail.
#[derive(Debug, Drop)]
pub struct MemSource {
    bytes: Vec<u8>,
    at: usize,
    piece: usize,
    plan: FaultPlan,
    ghost within: { at ≤ length bytes.items },
    ghost some: { 0 < piece },
}

impl MemSource {
    ghost use Rattle.sn_io.specs.Memory.{source_left, source_piece, source_plan};

    /// Gives these bytes, at most `piece` of them a call. The calls of the numbers in `failing`, from 0, fail.
    pub fn new(bytes: Vec<u8>, piece: usize, failing: Vec<u64>) -> MemSource
        requires { 0 < piece }
        ensures left { source_left result ≡ bytes.items }
        ensures piece { source_piece result ≡ piece }
        ensures plan { source_plan result ≡ fresh failing.items }
    {
        MemSource {
            bytes,
            at: 0,
            piece,
            plan: FaultPlan::new(failing),
        }
    }

    /// The bytes that are left.
    pub fn left(&self) -> &[u8]
        ensures { result.now ≡ source_left self.now }
    {
        &self.bytes[self.at..]
    }
}

impl Source for MemSource {
    ghost use Rattle.sn_io.specs.Memory.{source_left, source_piece, source_plan};

    ghost left = { λ s. Some (source_left s) };

    ghost fault_count = { λ s. (source_plan s).faults };

    fn faults(&self) -> u64 {
        self.plan.faults()
    }

    fn read(&mut self, into: &mut [u8]) -> Result<usize, Failed>
        ensures bound { ReadsAtMost result into.new }
        ensures bytes { ReadConsumes (Some (source_left self.old)) (Some (source_left self.new)) result into.new }
        ensures cause { CountsFailure (source_plan self.old).faults (source_plan self.new).faults result }

        ensures listed { IsErr result ↔ IsTrue (is_listed (source_plan self.old)) }
        ensures size { IfOk result (λ n. n ≡ min (min (length (source_left self.old)) (length into.old)) (source_piece self.old)) }
        ensures plan { source_plan self.new ≡ began (source_plan self.old) }
        ensures piece { source_piece self.new ≡ source_piece self.old }
    {
        self.plan.begin()?;
        let rest = &self.bytes[self.at..];
        let count = rest.len().min(into.len()).min(self.piece);
        into[..count].copy_from_slice(&rest[..count]);
        self.at += count;
        Ok(count)
    }
}

/// Holds what is written to it. A call fails where it is listed, or in want of memory.
#[derive(Debug, Drop)]
pub struct MemSink {
    bytes: Vec<u8>,
    piece: usize,
    plan: FaultPlan,
    ghost some: { 0 < piece },
}

impl MemSink {
    ghost use Rattle.sn_io.specs.Memory.{sink_held, sink_piece, sink_plan};

    /// An empty sink, which takes at most `piece` bytes a call. The calls of the numbers in `failing`, from 0, fail.
    pub fn new(alloc: Global, piece: usize, failing: Vec<u64>) -> MemSink
        requires { 0 < piece }
        ensures held { sink_held result ≡ [] }
        ensures piece { sink_piece result ≡ piece }
        ensures plan { sink_plan result ≡ fresh failing.items }
    {
        MemSink {
            bytes: Vec::new(alloc),
            piece,
            plan: FaultPlan::new(failing),
        }
    }

    /// The bytes that were written.
    pub fn bytes(&self) -> &[u8]
        ensures { result.now ≡ sink_held self.now }
    {
        &self.bytes
    }

    /// How often a call has failed for want of memory.
    pub fn wants(&self) -> u64
        ensures { result ≡ (sink_plan self.now).wants }
    {
        self.plan.wants()
    }
}

impl Sink for MemSink {
    ghost use Rattle.sn_io.specs.Memory.{sink_held, sink_piece, sink_plan};

    ghost held = { λ s. Some (sink_held s) };

    ghost fault_count = { λ s. (sink_plan s).faults };

    fn faults(&self) -> u64 {
        self.plan.faults()
    }

    fn write(&mut self, bytes: &[u8]) -> Result<usize, Failed>
        ensures some { TakesSome result bytes.now }
        ensures bytes { WriteAppends (Some (sink_held self.old)) (Some (sink_held self.new)) result bytes.now }
        ensures cause { CountsFailure (sink_plan self.old).faults (sink_plan self.new).faults result }

        ensures listed { IsTrue (is_listed (sink_plan self.old)) → IsErr result }
        ensures size { IfOk result (λ n. n ≡ min (length bytes.now) (sink_piece self.old)) }
        ensures plan_ok { OnOk result (sink_plan self.new ≡ began (sink_plan self.old)) }
        // A fault at a call that isn't listed is want of memory.
        ensures plan_err { OnErr result (sink_plan self.new ≡ after_fault (sink_plan self.old)) }
        ensures piece { sink_piece self.new ≡ sink_piece self.old }
    {
        self.plan.begin()?;
        let count = bytes.len().min(self.piece);
        match self.bytes.extend_from_slice(&bytes[..count]) {
            Ok(()) => Ok(count),
            Err(_) => Err(self.plan.want()),
        }
    }
}

/// Gives the seeds that it was made with, in turn, and then seeds of zeros.
#[derive(Debug, Drop)]
pub struct MemSeeds {
    seeds: Vec<[u8; 32]>,
    drawn: u64,
}

impl MemSeeds {
    ghost use Rattle.sn_io.specs.Memory.{seeds_made_with, seeds_drawn};

    /// Gives these seeds first.
    pub fn new(seeds: Vec<[u8; 32]>) -> MemSeeds
        ensures seeds { seeds_made_with result ≡ seeds.items }
        ensures drawn { seeds_drawn result ≡ 0 }
    {
        MemSeeds { seeds, drawn: 0 }
    }
}

impl Seeds for MemSeeds {
    ghost use Rattle.sn_io.specs.Causes.{next_count};
    ghost use Rattle.sn_io.specs.Streams.{Gains};
    ghost use Rattle.sn_io.specs.Memory.{seeds_made_with, seeds_drawn, seeds_given};

    ghost given = { seeds_given };

    fn draw(&mut self) -> [u8; 32]
        ensures gains { Gains (seeds_given self.old) (seeds_given self.new) result }
        ensures value { result ≡ seed_at (seeds_made_with self.old) (seeds_drawn self.old) }
        ensures drawn { seeds_drawn self.new ≡ next_count (seeds_drawn self.old) }
        ensures seeds { seeds_made_with self.new ≡ seeds_made_with self.old }
    {
        let seed = seed_of(&self.seeds, self.drawn);
        self.drawn = self.drawn.saturating_add(1);
        seed
    }
}

// The seed of this number, from 0.
fn seed_of(seeds: &[[u8; 32]], number: u64) -> [u8; 32]
    ensures { result ≡ seed_at seeds.now number }
{
    match seeds.get(number as usize) {
        Some(seed) => *seed,
        None => [0; 32],
    }
}
