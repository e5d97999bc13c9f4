//! A sink in memory, whose writes and flushes fail as they are told to.
ghost use Rattle.std.specs.Prelude.{◌≡◌, Some, [], ◌-◌, ◌<◌, ◌↔◌, ◌⊎◌, min, length, IfOk};
ghost use Rattle.std.specs.List.{Contains};
ghost use Rattle.irq_io.specs.Faults.{Counts, next_count, count_after};
ghost use Rattle.irq_io.specs.Told.{Stays};
ghost use Rattle.irq_io.specs.Writes.{IfTook, LeavesNone, TookWithin, Writes};
ghost use Rattle.irq_io.specs.Writes.{flush_failed, taken_of, write_failed};

use crate::listed::is_listed;
use crate::sinks::{FlushAnswer, Sink, WriteAnswer};
use irq_base::NoMemory;
use std::alloc::Global;
use std::marker::Model;

/// A sink into memory, which takes bytes while it has room. The writes whose numbers are in `fails`
/// fail, and the flushes whose numbers are in `flush_fails`; both are counted from 1. It keeps
/// nothing back. Contracts see `content`, the `room` that is left, both lists, and how many
/// `writes`, `flushes` and `faults` there were.
#[derive(Drop)]
pub struct MemSink {
    content: Vec<u8>,
    room: usize,
    fails: Vec<u32>,
    flush_fails: Vec<u32>,
    writes: u64,
    flushes: u64,
    faults: u64,
}

impl Model for MemSink {
    ghost use Rattle.std.specs.Prelude.{◌≤◌, ◌+◌, vec_len, vec_capacity};
    ghost use Rattle.irq_io.specs.MemStreams.{MemSinkSeen};

    ghost Value = { MemSinkSeen };

    ghost view = { λ s. record {
      content = s.content.items;
      room = s.room;
      fails = s.fails.items;
      flush_fails = s.flush_fails.items;
      writes = s.writes;
      flushes = s.flushes;
      faults = s.faults;
    } };

    ghost invariant = { λ s. vec_len s.content + s.room ≤ vec_capacity s.content };
}

impl MemSink {
    /// The empty sink with room for `room` bytes; its flushes never fail. The memory for the room
    /// is taken at once, so no write needs any. `fails` are the numbers of the writes that fail,
    /// counted from 1. The only error is `NoMemory`.
    pub fn new(alloc: Global, fails: &[u32], room: usize) -> Result<MemSink, NoMemory>
        ensures content { IfOk result (λ s. (s.content ≡ []) × (s.room ≡ room)) }
        ensures settings { IfOk result (λ s. (s.fails ≡ fails.now) × (s.flush_fails ≡ [])) }
        ensures counts { IfOk result (λ s. (s.writes ≡ 0) × (s.flushes ≡ 0) × (s.faults ≡ 0)) }
    {
        MemSink::with_failing_flushes(alloc, fails, &[], room)
    }

    /// The empty sink with room for `room` bytes; the memory is taken at once. `fails` are the
    /// numbers of the writes that fail, `flush_fails` the numbers of the flushes that fail, both
    /// counted from 1. The only error is `NoMemory`.
    pub fn with_failing_flushes(
        alloc: Global,
        fails: &[u32],
        flush_fails: &[u32],
        room: usize,
    ) -> Result<MemSink, NoMemory>
        ensures content { IfOk result (λ s. (s.content ≡ []) × (s.room ≡ room)) }
        ensures settings { IfOk result (λ s. (s.fails ≡ fails.now)
            × (s.flush_fails ≡ flush_fails.now)) }
        ensures counts { IfOk result (λ s. (s.writes ≡ 0) × (s.flushes ≡ 0) × (s.faults ≡ 0)) }
    {
        let content = Vec::with_capacity(alloc, room)?;
        let fails = Vec::from_slice(alloc, fails)?;
        let flush_fails = Vec::from_slice(alloc, flush_fails)?;
        Ok(MemSink {
            content,
            room,
            fails,
            flush_fails,
            writes: 0,
            flushes: 0,
            faults: 0,
        })
    }

    /// The bytes that it took.
    pub fn written(&self) -> &[u8]
        ensures { result.now ≡ self.now.content }
    {
        self.content.as_slice()
    }

    /// The number of faults so far; at the greatest u64 it rises no more.
    pub fn faults(&self) -> u64
        ensures { result ≡ self.now.faults }
    {
        self.faults
    }
}

impl Sink for MemSink {
    ghost written = { λ s. Some s.content };

    ghost kept = { λ s. [] };

    ghost faults = { λ s. s.faults };

    fn write(&mut self, bytes: &[u8]) -> WriteAnswer
        requires { 0 < length bytes.now }
        ensures bound { TookWithin (length bytes.now) result }
        ensures content { Writes (Some self.old.content) (Some self.new.content) bytes.now result }
        ensures cause { Counts self.old.faults self.new.faults (write_failed result) }

        // It takes all bytes, or as many as fit. A write fails if its number is listed, or there is
        // no room.
        ensures amount { IfTook result (λ n. n ≡ min self.old.room (length bytes.now)) }
        ensures fails { (result ≡ WriteAnswer.Failed)
            ↔ (Contains self.old.fails (next_count self.old.writes) ⊎ (self.old.room ≡ 0)) }
        ensures faults { self.new.faults ≡ count_after self.old.faults (write_failed result) }

        // The number of writes stays at the greatest u64 once it is there; no list has this number.
        ensures writes { self.new.writes ≡ next_count self.old.writes }
        ensures room { self.new.room ≡ self.old.room - taken_of result }
        ensures settings { (self.new.fails ≡ self.old.fails)
            × (self.new.flush_fails ≡ self.old.flush_fails)
            × (self.new.flushes ≡ self.old.flushes) }
    {
        self.writes = self.writes.saturating_add(1);
        if self.room == 0 || is_listed(&self.fails, self.writes) {
            self.faults = self.faults.saturating_add(1);
            return WriteAnswer::Failed;
        }
        let count = self.room.min(bytes.len());
        self.content.extend_from_slice(&bytes[..count]).unwrap();
        self.room -= count;
        WriteAnswer::Took(count)
    }

    fn flush(&mut self) -> FlushAnswer
        ensures content { Stays (Some self.old.content) (Some self.new.content) }
        ensures emptied { LeavesNone [] result }
        ensures cause { Counts self.old.faults self.new.faults (flush_failed result) }

        ensures fails { (result ≡ FlushAnswer.Failed)
            ↔ Contains self.old.flush_fails (next_count self.old.flushes) }
        ensures faults { self.new.faults ≡ count_after self.old.faults (flush_failed result) }

        // The number of flushes stays at the greatest u64 once it is there; no list has this
        // number.
        ensures flushes { self.new.flushes ≡ next_count self.old.flushes }
        ensures settings { (self.new.fails ≡ self.old.fails)
            × (self.new.flush_fails ≡ self.old.flush_fails)
            × (self.new.writes ≡ self.old.writes) × (self.new.room ≡ self.old.room) }
    {
        self.flushes = self.flushes.saturating_add(1);
        if is_listed(&self.flush_fails, self.flushes) {
            self.faults = self.faults.saturating_add(1);
            return FlushAnswer::Failed;
        }
        FlushAnswer::Done
    }
}
