//! A sink in memory, some of whose calls fail by their numbers.

ghost use Rattle.std.specs.Prelude.{◌≡◌, ℕ, ◌<◌, ◌≤◌, ◌↔◌, [], ◌++◌, List, length, take, vec_len, vec_capacity, Option, Some, None, IfOk, OnOk, OnErr};
ghost use Rattle.crq_io.specs.Faults.{Rose, one_more};
ghost use Rattle.crq_io.specs.Told.{Appends, IsPart};

use crate::faults::{is_listed, list_of, one_more};
use crate::sink::{Failed, Sink};
use crq_base::Memory;
use std::alloc::Global;

/// A vector whose room is made with it. The calls of `write` are numbered from 1, and those whose
/// numbers are listed fail. Numbers and faults are counted up to 2^64 - 1.
#[derive(Drop)]
pub struct MemSink {
    bytes: Vec<u8>,
    room: usize,
    most: usize,
    fails: Vec<u64>,
    calls: u64,
    faults: u64,
    ghost takes_some: { 0 < most },
    ghost within: { vec_len bytes ≤ room },
    ghost made: { room ≤ vec_capacity bytes },
}

impl MemSink {
    ghost use Rattle.crq_io.specs.MemSink.{bytes_of, room_of, most_of, fails_of, calls_of, faults_of};

    /// An empty sink with room for `room` bytes, of which a call takes at most `most`. The calls of
    /// `write` that fail are those whose numbers, from 1, are in `fails`.
    pub fn new(alloc: Global, room: usize, most: usize, fails: &[u64]) -> Result<MemSink, Memory>
        requires { 1 ≤ most }
        ensures bytes { IfOk result (λ made. bytes_of made ≡ []) }
        ensures limits { IfOk result (λ made. (room_of made ≡ room) × (most_of made ≡ most)) }
        ensures fails { IfOk result (λ made. fails_of made ≡ fails.now) }
        ensures counts { IfOk result (λ made. (calls_of made ≡ 0) × (faults_of made ≡ 0)) }
    {
        let fails = list_of(alloc, fails)?;
        let bytes = Vec::with_capacity(alloc, room)?;
        Ok(MemSink {
            bytes,
            room,
            most,
            fails,
            calls: 0,
            faults: 0,
        })
    }

    /// What was written.
    pub fn bytes(&self) -> &[u8]
        ensures { result.now ≡ bytes_of self.now }
    {
        self.bytes.as_slice()
    }

    /// How often a write failed.
    pub fn faults(&self) -> u64
        ensures { result ≡ faults_of self.now }
    {
        self.faults
    }
}

impl Sink for MemSink {
    ghost use Rattle.crq_io.specs.MemSink.{bytes_of, faults_of, Refuses, taken_of, IsNextCall};

    ghost written = { λ sink. Some (bytes_of sink) };

    ghost faults = { faults_of };

    fn write(&mut self, piece: &[u8]) -> Result<usize, Failed>
        // What every sink ensures.
        ensures ok { IfOk result (λ n. IsPart n piece.now
            × Appends (Some (bytes_of self.old)) (Some (bytes_of self.new)) (take n piece.now)) }
        ensures failed { OnErr result (Rose (faults_of self.old) (faults_of self.new)) }
        ensures nothing { OnErr result (Some (bytes_of self.new) ≡ Some (bytes_of self.old)) }
        ensures later { faults_of self.old ≤ faults_of self.new }

        // A write fails, and is counted, exactly where its number is listed or the room is used up.
        ensures refused { OnErr result (Refuses self.old piece.now) }
        ensures counted { OnErr result (faults_of self.new ≡ one_more (faults_of self.old)) }
        ensures accepted { OnOk result (Refuses self.old piece.now → ⊥) }
        ensures uncounted { OnOk result (faults_of self.new ≡ faults_of self.old) }
        ensures taken { IfOk result (λ n. n ≡ taken_of self.old piece.now) }
        ensures next { IsNextCall self.old self.new }
    {
        self.calls = one_more(self.calls);
        let left = self.room - self.bytes.len();
        if is_listed(self.fails.as_slice(), self.calls) || (left == 0 && !piece.is_empty()) {
            self.faults = one_more(self.faults);
            return Err(Failed);
        }
        let count = piece.len().min(self.most).min(left);
        self.bytes.extend_from_slice(&piece[..count]).unwrap();
        Ok(count)
    }
}
