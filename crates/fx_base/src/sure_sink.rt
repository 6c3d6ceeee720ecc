ghost use Rattle.std.specs.Prelude.{◌≡◌, ◌<◌, ◌≤◌, ◌-◌, ◌++◌, ◌↔◌, [], length, take, vec_len, vec_capacity, Some, IsErr, IfOk, OnErr};
ghost use Rattle.fx_base.specs.Faults.{HasCause, IsUnchanged, raised};
ghost use Rattle.fx_base.specs.Writing.{Appends};
ghost use Rattle.fx_base.specs.Memory.{SinkInMemory, IsSureSink, portion};

use crate::failed::Failed;
use crate::memory::NoMemory;
use crate::sink::Sink;
use std::alloc::Global;
use std::marker::Model;

/// A sink in memory that fails exactly where its room is used up.
#[derive(Drop)]
pub struct SureSink {
    bytes: Vec<u8>,
    step: usize,
    room: usize,
    faults: u64,
}

impl Model for SureSink {
    ghost Value = { SinkInMemory };

    ghost view = { λ s. record {
      written = s.bytes.items;
      step = s.step;
      room = s.room;
      faults = s.faults;
    } };

    ghost invariant = { λ s. IsSureSink (vec_len s.bytes) (vec_capacity s.bytes) s.step s.room s.faults };
}

impl SureSink {
    /// An empty sink for `room` bytes, which takes at most `step` of them in a call. All its memory
    /// is taken here.
    ///
    /// # Errors
    ///
    /// `NoMemory`: so much memory is not there.
    pub fn new(alloc: Global, step: usize, room: usize) -> Result<SureSink, NoMemory>
        requires { 0 < step }
        ensures { IfOk result (λ s.
            s ≡ record { written = []; step = step; room = room; faults = 0 }) }
    {
        match Vec::with_capacity(alloc, room) {
            Ok(bytes) => Ok(SureSink {
                bytes,
                step,
                room,
                faults: 0,
            }),
            Err(_) => Err(NoMemory),
        }
    }

    /// The bytes that were written.
    pub fn bytes(&self) -> &[u8]
        ensures { result.now ≡ self.now.written }
    {
        self.bytes.as_slice()
    }

    /// How many calls failed: none while fewer bytes than the room are written.
    pub fn faults(&self) -> u64
        ensures count { result ≡ self.now.faults }
        ensures within { length self.now.written ≤ self.now.room }
        ensures sure { length self.now.written < self.now.room → self.now.faults ≡ 0 }
    {
        self.faults
    }
}

impl Sink for SureSink {
    ghost written = { λ s. Some s.written };

    ghost faults = { λ s. s.faults };

    ghost room = { λ s. Some s.room };

    fn write(&mut self, piece: &[u8]) -> Result<usize, Failed>
        ensures within { IfOk result (λ n. n ≤ length piece.now) }
        ensures some { IfOk result (λ n. 0 < length piece.now → 0 < n) }
        ensures taken { IfOk result (λ n.
            Appends (Some self.old.written) (Some self.new.written) (take n piece.now)) }
        ensures failed { OnErr result (IsUnchanged (Some self.old.written) (Some self.new.written)) }
        ensures cause { HasCause self.old.faults self.new.faults result }
        ensures unchanged { Some self.new.room ≡ Some self.old.room }

        ensures full { IsErr result
            ↔ ((0 < length piece.now) × (length self.old.written ≡ self.old.room)) }
        ensures count { IfOk result (λ n.
            n ≡ portion self.old.step (self.old.room - length self.old.written) (length piece.now)) }
        ensures after { IfOk result (λ n.
            self.new ≡ record self.old { written = self.old.written ++ take n piece.now }) }
        ensures fault { OnErr result
            (self.new ≡ record self.old { faults = raised self.old.faults }) }
    {
        let there = self.room - self.bytes.len();
        let count = self.step.min(there).min(piece.len());
        if count == 0 && !piece.is_empty() {
            self.faults = self.faults.saturating_add(1);
            return Err(Failed);
        }
        match self.bytes.extend_from_slice(&piece[..count]) {
            Ok(()) => Ok(count),
            Err(_) => unreachable!(),
        }
    }
}
