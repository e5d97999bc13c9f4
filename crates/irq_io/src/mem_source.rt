//! A source in memory, whose reads fail as they are told to.
ghost use Rattle.std.specs.Prelude.{◌≡◌, Some, ◌<◌, ◌≤◌, ◌↔◌, min, length, IfOk};
ghost use Rattle.std.specs.List.{Contains};
ghost use Rattle.irq_io.specs.Faults.{Counts, next_count, count_after};
ghost use Rattle.irq_io.specs.Reads.{GotWithin, IfGot, Reads, read_failed};

use crate::listed::is_listed;
use crate::sources::{ReadAnswer, Source};
use irq_base::NoMemory;
use std::alloc::Global;
use std::marker::Model;

/// A source over bytes in memory. A read gives at most `piece` bytes; the reads whose numbers,
/// counted from 1, are in `fails` fail. Contracts see what is `left`, `piece`, `fails`, and how
/// many `reads` and `faults` there were.
#[derive(Drop)]
pub struct MemSource {
    bytes: Vec<u8>,
    at: usize,
    piece: usize,
    fails: Vec<u32>,
    reads: u64,
    faults: u64,
}

impl Model for MemSource {
    ghost use Rattle.std.specs.Prelude.{◌≤◌, drop, length};
    ghost use Rattle.irq_io.specs.MemStreams.{MemSourceSeen};

    ghost Value = { MemSourceSeen };

    ghost view = { λ s. record {
      left = drop s.at s.bytes.items;
      piece = s.piece;
      fails = s.fails.items;
      reads = s.reads;
      faults = s.faults;
    } };

    ghost invariant = { λ s. (s.at ≤ length s.bytes.items) × (1 ≤ s.piece) };
}

impl MemSource {
    /// The source of these bytes. A read gives at most `piece` of them; `piece` is at least 1.
    /// `fails` are the numbers of the reads that fail, counted from 1. The only error is
    /// `NoMemory`.
    pub fn new(
        alloc: Global,
        bytes: &[u8],
        piece: usize,
        fails: &[u32],
    ) -> Result<MemSource, NoMemory>
        requires { 1 ≤ piece }
        ensures content { IfOk result (λ s. s.left ≡ bytes.now) }
        ensures settings { IfOk result (λ s. (s.piece ≡ piece) × (s.fails ≡ fails.now)) }
        ensures counts { IfOk result (λ s. (s.reads ≡ 0) × (s.faults ≡ 0)) }
    {
        let bytes = Vec::from_slice(alloc, bytes)?;
        let fails = Vec::from_slice(alloc, fails)?;
        Ok(MemSource {
            bytes,
            at: 0,
            piece,
            fails,
            reads: 0,
            faults: 0,
        })
    }

    /// The number of faults so far; at the greatest u64 it rises no more.
    pub fn faults(&self) -> u64
        ensures { result ≡ self.now.faults }
    {
        self.faults
    }
}

impl Source for MemSource {
    ghost left = { λ s. Some s.left };

    ghost faults = { λ s. s.faults };

    fn read(&mut self, buf: &mut [u8]) -> ReadAnswer
        requires { 0 < length buf.old }
        ensures bound { GotWithin (length buf.old) result }
        ensures content { Reads (Some self.old.left) (Some self.new.left) buf.new result }
        ensures cause { Counts self.old.faults self.new.faults (read_failed result) }

        // It gives as many bytes as `piece`, the buffer and what is left allow.
        ensures amount { IfGot result (λ n. n
            ≡ min self.old.piece (min (length buf.old) (length self.old.left))) }
        ensures fails { (result ≡ ReadAnswer.Failed) ↔ Contains self.old.fails
            (next_count self.old.reads) }
        ensures faults { self.new.faults ≡ count_after self.old.faults (read_failed result) }

        // The number of reads stays at the greatest u64 once it is there; no list has this number.
        ensures reads { self.new.reads ≡ next_count self.old.reads }
        ensures settings { (self.new.piece ≡ self.old.piece) × (self.new.fails ≡ self.old.fails) }
    {
        self.reads = self.reads.saturating_add(1);
        if is_listed(&self.fails, self.reads) {
            self.faults = self.faults.saturating_add(1);
            return ReadAnswer::Failed;
        }
        let left = &self.bytes[self.at..];
        let count = self.piece.min(buf.len()).min(left.len());
        if count == 0 {
            return ReadAnswer::End;
        }
        buf[..count].copy_from_slice(&left[..count]);
        self.at += count;
        ReadAnswer::Got(count)
    }
}
