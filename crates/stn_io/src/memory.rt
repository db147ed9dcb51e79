//! A source and a sink in memory, which move at most a piece per call and fail at listed calls.
ghost use Rattle.std.specs.Prelude.{◌≡◌, ◌≤◌, ◌<◌, ◌↔◌, ◌⊎◌, [], ◌++◌, Some, IsErr, IsTrue, IfOk, OnErr, length, take, drop};
ghost use Rattle.std.specs.List.{Contains};
ghost use Rattle.std.specs.Io.{ReadsAtMost, WritesAtMost};
ghost use Rattle.std.specs.Io.KnownBytes.{ReadConsumes, WriteAppends};
ghost use Rattle.stn_io.specs.Bytes.{TakesSome};
ghost use Rattle.stn_io.specs.Causes.{HasCause, one_more};
ghost use Rattle.stn_io.specs.Memory.{source_state, sink_state, given_count, after_read, after_failed_read, taken_count, after_write, after_failed_write};

use crate::traits::{Failed, Sink, Source};
use std::marker::Model;

/// Bytes in memory, of which each call gives at most a piece.
///
/// Contracts see the bytes left, the piece, the numbers of the calls that fail, how many calls were
/// made and how many failed. Both counts are `u64` and stop at their last value.
#[derive(Drop)]
pub struct MemSource {
    bytes: Vec<u8>,
    at: usize,
    piece: usize,
    failing: Vec<u32>,
    calls: u64,
    faults: u64,
}

impl Model for MemSource {
    ghost use Rattle.std.specs.Prelude.{◌≡◌, ◌≤◌, ◌<◌, [], drop, vec_len};
    ghost use Rattle.stn_io.specs.Memory.{MemSourceState};

    ghost Value = { MemSourceState };

    ghost view = { λ s. record { left = drop s.at s.bytes.items; piece = s.piece; failing = s.failing.items; calls = s.calls; faults = s.faults } };

    ghost invariant = { λ s. (s.at ≤ vec_len s.bytes) × (0 < s.piece) × (s.failing.items ≡ [] → s.faults ≡ 0) };
}

impl MemSource {
    /// A source of these bytes that gives at most `piece` bytes per call, and fails exactly at the
    /// calls that `failing` lists, counted from 1.
    pub fn new(bytes: Vec<u8>, piece: usize, failing: Vec<u32>) -> Self
        requires { 0 < piece }
        ensures { result ≡ record { left = bytes.items; piece = piece; failing = failing.items; calls = 0; faults = 0 } }
    {
        MemSource {
            bytes,
            at: 0,
            piece,
            failing,
            calls: 0,
            faults: 0,
        }
    }
}

impl Source for MemSource {
    ghost state = { source_state };

    /// Gives the least of the piece, the length of `out` and the bytes left.
    ///
    /// # Errors
    ///
    /// `Failed` exactly where the number of this call is listed. With nothing listed, no call
    /// fails and the count stays 0.
    fn read(&mut self, out: &mut [u8]) -> Result<usize, Failed>
        ensures bound { ReadsAtMost result out.new }
        ensures bytes { ReadConsumes (Some self.old.left) (Some self.new.left) result out.new }
        ensures untouched { OnErr result (out.new ≡ out.old) }
        ensures cause { HasCause self.old.faults self.new.faults result }

        // The exact behaviour.
        ensures fails { IsErr result ↔ Contains self.old.failing (one_more self.old.calls) }
        ensures failed { OnErr result (self.new ≡ after_failed_read self.old) }
        ensures count { IfOk result (λ n. n ≡ given_count self.old (length out.old)) }
        ensures given { IfOk result (λ n. out.new ≡ take n self.old.left ++ drop n out.old) }
        ensures rest { IfOk result (λ n. self.new ≡ after_read self.old n) }
        ensures quiet { self.old.failing ≡ [] → self.new.faults ≡ 0 }
    {
        self.calls = self.calls.saturating_add(1);
        if is_listed(&self.failing, self.calls) {
            self.faults = self.faults.saturating_add(1);
            return Err(Failed);
        }
        let count = self.piece.min(out.len()).min(self.bytes.len() - self.at);
        out[..count].copy_from_slice(&self.bytes[self.at..self.at + count]);
        self.at += count;
        Ok(count)
    }
}

/// Room in memory, of which each call fills at most a piece.
///
/// Contracts see the bytes taken, the room left, the piece, the numbers of the calls that fail, how
/// many calls were made and how many failed. Both counts are `u64` and stop at their last value.
#[derive(Drop)]
pub struct MemSink {
    room: Vec<u8>,
    at: usize,
    piece: usize,
    failing: Vec<u32>,
    calls: u64,
    faults: u64,
}

impl Model for MemSink {
    ghost use Rattle.std.specs.Prelude.{◌-◌, ◌≤◌, ◌<◌, take, vec_len};
    ghost use Rattle.stn_io.specs.Memory.{MemSinkState};

    ghost Value = { MemSinkState };

    ghost view = { λ s. record { taken = take s.at s.room.items; room = vec_len s.room - s.at; piece = s.piece; failing = s.failing.items; calls = s.calls; faults = s.faults } };

    ghost invariant = { λ s. (s.at ≤ vec_len s.room) × (0 < s.piece) };
}

impl MemSink {
    /// A sink that writes over the bytes of `room` from its front, takes at most `piece` bytes per
    /// call, and fails at the calls that `failing` lists, counted from 1, and where it is full.
    pub fn new(room: Vec<u8>, piece: usize, failing: Vec<u32>) -> Self
        requires { 0 < piece }
        ensures { result ≡ record { taken = []; room = length room.items; piece = piece; failing = failing.items; calls = 0; faults = 0 } }
    {
        MemSink {
            room,
            at: 0,
            piece,
            failing,
            calls: 0,
            faults: 0,
        }
    }

    /// The bytes that were taken, and not the rest of the room.
    pub fn bytes(&self) -> &[u8]
        ensures { result.now ≡ self.now.taken }
    {
        &self.room[..self.at]
    }
}

impl Sink for MemSink {
    ghost state = { sink_state };

    /// Takes the least of the piece, the length of `bytes` and the room left.
    ///
    /// # Errors
    ///
    /// `Failed` exactly where the number of this call is listed, or where `bytes` is not empty and
    /// no room is left.
    fn write(&mut self, bytes: &[u8]) -> Result<usize, Failed>
        ensures bound { WritesAtMost result bytes.now }
        ensures some { TakesSome result bytes.now }
        ensures bytes { WriteAppends (Some self.old.taken) (Some self.new.taken) result bytes.now }
        ensures cause { HasCause self.old.faults self.new.faults result }

        // The exact behaviour.
        ensures fails { IsErr result ↔ (Contains self.old.failing (one_more self.old.calls) ⊎ ((0 < length bytes.now) × (self.old.room ≡ 0))) }
        ensures failed { OnErr result (self.new ≡ after_failed_write self.old) }
        ensures count { IfOk result (λ n. n ≡ taken_count self.old (length bytes.now)) }
        ensures took { IfOk result (λ n. self.new ≡ after_write self.old bytes.now n) }
    {
        let number = self.calls.saturating_add(1);
        self.calls = number;
        let full = self.at == self.room.len() && !bytes.is_empty();
        if is_listed(&self.failing, number) || full {
            self.faults = self.faults.saturating_add(1);
            return Err(Failed);
        }
        let count = self.piece.min(bytes.len()).min(self.room.len() - self.at);
        let end = self.at + count;
        self.room[self.at..end].copy_from_slice(&bytes[..count]);
        self.at = end;
        Ok(count)
    }
}

// Whether the call of this number is one of those that fail.
fn is_listed(failing: &[u32], number: u64) -> bool
    ensures { IsTrue result ↔ Contains failing.now number }
{
    failing.iter().any(|listed| number == u64::from(*listed))
}
