//! Sources and sinks in memory, which fail at listed calls.

ghost use Rattle.std.specs.Prelude.{◌≡◌, ℕ, ◌+◌, ◌-◌, ◌<◌, ◌≤◌, ◌^◌, ◌↔◌, ◌⊎◌, length, min, Contains, IsErr, IsTrue};
ghost use Rattle.std.specs.Prelude.{IfOk, OnOk, Some};
ghost use Rattle.std.specs.Io.{ReadsAtMost};
ghost use Rattle.std.specs.Io.KnownBytes.{Keeps, ReadConsumes, WriteAppends};
ghost use Rattle.am_io.specs.Memory.{Finishes, GivesBytes, TakesBytes, new_sink, new_source};
ghost use Rattle.am_io.specs.Streams.{FailsByCount};

use crate::streams::{Failed, Sink, Source};
use std::alloc::{AllocError, Global};
use std::marker::Model;

/// Bytes in memory, handed out in pieces of at most `step`. The calls whose numbers are listed in
/// `failing` fail.
#[derive(Drop)]
pub struct MemorySource {
    bytes: Vec<u8>,
    at: usize,
    step: usize,
    failing: Vec<u32>,
    calls: u64,
    faults: u64,
}

impl Model for MemorySource {
    ghost use Rattle.am_io.specs.Memory.{SourceState, source_code};
    ghost use Rattle.std.specs.Prelude.{drop, length, ◌<◌, ◌≤◌};

    ghost Value = { SourceState };

    ghost coded = { source_code };

    ghost view = { λ s. record {
      left = drop s.at s.bytes.items;
      step = s.step;
      failing = s.failing.items;
      calls = s.calls;
      faults = s.faults;
    } };

    ghost invariant = { λ s. (s.at ≤ length s.bytes.items) × (0 < s.step) };
}

/// Whether a call is listed.
fn is_listed(failing: &[u32], call: u64) -> bool
    ensures { IsTrue result ↔ Contains failing.now call }
{
    failing.iter().any(|number| *number as u64 == call)
}

impl MemorySource {
    /// Calls are numbered from 0.
    pub fn new(bytes: Vec<u8>, step: usize, failing: Vec<u32>) -> MemorySource
        requires { 0 < step }
        ensures { result ≡ new_source bytes.items step failing.items }
    {
        MemorySource {
            bytes,
            at: 0,
            step,
            failing,
            calls: 0,
            faults: 0,
        }
    }
}

impl Source for MemorySource {
    ghost left = { λ s. Some s.left };

    ghost faults = { λ s. s.faults };

    ghost calls = { λ s. s.calls };

    /// Gives as many bytes as the least of `step`, the buffer's length and the bytes left.
    fn take(&mut self, into: &mut [u8]) -> Result<usize, Failed>
        requires room { 0 < length into.old }
        requires count { self.old.faults < 2 ^ 64 - 1 }
        ensures bound { ReadsAtMost result into.new }
        ensures bytes { ReadConsumes (Some self.old.left) (Some self.new.left) result into.new }
        ensures cause { FailsByCount self.old.faults self.new.faults result }
        ensures calls { self.new.calls ≤ self.old.calls + 1 }
        ensures listed { IsErr result ↔ Contains self.old.failing self.old.calls }
        ensures least { IfOk result (λ n.
            n ≡ min (min self.old.step (length into.old)) (length self.old.left)) }
        ensures gives { GivesBytes self.old self.new result }
    {
        let call = self.calls;
        self.calls = self.calls.saturating_add(1);
        if is_listed(&self.failing, call) {
            self.faults += 1;
            return Err(Failed::Failed);
        }
        let count = self.step.min(into.len()).min(self.bytes.len() - self.at);
        into[..count].copy_from_slice(&self.bytes[self.at..self.at + count]);
        self.at += count;
        Ok(count)
    }
}

/// Room in memory, filled in pieces of at most `step`. The calls of `put` and `finish` whose
/// numbers are listed in `failing` fail.
#[derive(Drop)]
pub struct MemorySink {
    text: Vec<u8>,
    room: usize,
    step: usize,
    failing: Vec<u32>,
    calls: u64,
    faults: u64,
}

impl Model for MemorySink {
    ghost use Rattle.am_io.specs.Memory.{SinkState, sink_code};
    ghost use Rattle.std.specs.Prelude.{◌+◌, ◌<◌, ◌≤◌, vec_capacity, vec_len};

    ghost Value = { SinkState };

    ghost coded = { sink_code };

    ghost view = { λ s. record {
      taken = s.text.items;
      room = s.room;
      step = s.step;
      failing = s.failing.items;
      calls = s.calls;
      faults = s.faults;
    } };

    ghost invariant = { λ s. (vec_len s.text + s.room ≤ vec_capacity s.text) × (0 < s.step) };
}

impl MemorySink {
    /// Takes the memory for `room` bytes, so that `put` and `finish` take none. Calls of both are
    /// numbered together from 0.
    pub fn new(
        alloc: Global,
        room: usize,
        step: usize,
        failing: Vec<u32>,
    ) -> Result<MemorySink, AllocError>
        requires { 0 < step }
        ensures { IfOk result (λ s. s ≡ new_sink room step failing.items) }
    {
        let text = Vec::with_capacity(alloc, room)?;
        Ok(MemorySink {
            text,
            room,
            step,
            failing,
            calls: 0,
            faults: 0,
        })
    }

    /// The bytes taken so far.
    pub fn taken(&self) -> &[u8]
        ensures { result.now ≡ self.now.taken }
    {
        &self.text
    }
}

impl Sink for MemorySink {
    ghost taken = { λ s. Some s.taken };

    ghost faults = { λ s. s.faults };

    ghost calls = { λ s. s.calls };

    ghost finishes = { λ _. 0 };

    ghost finished = { λ _. Unit {0} };

    /// Takes as many bytes as the least of `step`, the room left and the piece's length. Without
    /// room it fails.
    fn put(&mut self, piece: &[u8]) -> Result<usize, Failed>
        requires some { 0 < length piece.now }
        requires count { self.old.faults < 2 ^ 64 - 1 }
        ensures bound { IfOk result (λ n. (0 < n) × (n ≤ length piece.now)) }
        ensures bytes { WriteAppends (Some self.old.taken) (Some self.new.taken) result piece.now }
        ensures cause { FailsByCount self.old.faults self.new.faults result }
        ensures calls { self.new.calls ≤ self.old.calls + 1 }
        ensures fails { IsErr result ↔
            (Contains self.old.failing self.old.calls ⊎ (self.old.room ≡ 0)) }
        ensures least { IfOk result (λ n.
            n ≡ min (min self.old.step self.old.room) (length piece.now)) }
        ensures takes { TakesBytes self.old self.new result piece.now }
    {
        let call = self.calls;
        self.calls = self.calls.saturating_add(1);
        if self.room == 0 || is_listed(&self.failing, call) {
            self.faults += 1;
            return Err(Failed::Failed);
        }
        let count = self.step.min(self.room).min(piece.len());
        self.text.extend_from_slice(&piece[..count]).unwrap();
        self.room -= count;
        Ok(count)
    }

    fn finish(&mut self) -> Result<(), Failed>
        requires { self.old.faults < 2 ^ 64 - 1 }
        ensures bytes { Keeps (Some self.old.taken) (Some self.new.taken) }
        ensures cause { FailsByCount self.old.faults self.new.faults result }
        ensures calls { self.new.calls ≤ self.old.calls + 1 }
        ensures finished { OnOk result (Unit {0}) }
        ensures listed { IsErr result ↔ Contains self.old.failing self.old.calls }
        ensures finishes { Finishes self.old self.new result }
    {
        let call = self.calls;
        self.calls = self.calls.saturating_add(1);
        if is_listed(&self.failing, call) {
            self.faults += 1;
            return Err(Failed::Failed);
        }
        Ok(())
    }
}
