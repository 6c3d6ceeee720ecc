ghost use Rattle.std.specs.Prelude.{◌≡◌, ◌<◌, ◌≤◌, ◌-◌, ◌++◌, ◌↔◌, ◌⊎◌, ℕ, [], length, take, Some, IsErr, IfOk, OnErr};
ghost use Rattle.fx_base.specs.Faults.{HasCause, IsUnchanged, raised};
ghost use Rattle.fx_base.specs.Writing.{Appends};
ghost use Rattle.fx_base.specs.Memory.{FailingSink, IsListed, sure_room, portion};

use crate::failed::Failed;
use crate::listed_calls::ListedCalls;
use crate::memory::NoMemory;
use crate::sink::Sink;
use crate::sure_sink::SureSink;
use crate::values::Bytes;
use std::alloc::Global;
use std::marker::Model;

/// A sink in memory that fails exactly at listed calls and where its room is used up.
pub struct MemorySink {
    sink: SureSink,
    calls: ListedCalls,
    faults: u64,
}

// Not derived, so that a place that drops one is proved with one call.
impl Drop for MemorySink {
    fn drop(self) {
        let MemorySink {
            sink: _,
            calls: _,
            faults: _,
        } = self;
    }
}

impl Model for MemorySink {
    ghost Value = { FailingSink };

    ghost view = { λ s. record {
      written = s.sink.written;
      step = s.sink.step;
      room = s.sink.room;
      failing = s.calls.failing;
      made = s.calls.made;
      faults = s.faults;
    } };

    ghost invariant = { λ s. s.calls.failing ≡ [] → length s.sink.written < s.sink.room → s.faults ≡ 0 };
}

impl MemorySink {
    /// An empty sink for `room` bytes, which takes at most `step` of them in a call, and fails at the
    /// calls whose numbers, counted from 1, are in `failing`. All its memory is taken here.
    ///
    /// # Errors
    ///
    /// `NoMemory`: so much memory is not there.
    pub fn new(
        alloc: Global,
        step: usize,
        room: usize,
        failing: Bytes,
    ) -> Result<MemorySink, NoMemory>
        requires { 0 < step }
        ensures { IfOk result (λ s.
            s ≡ record { written = []; step = step; room = room; failing = failing; made = 0; faults = 0 }) }
    {
        let sink = SureSink::new(alloc, step, room)?;
        Ok(MemorySink {
            sink,
            calls: ListedCalls::new(failing),
            faults: 0,
        })
    }

    /// The bytes that were written.
    pub fn bytes(&self) -> &[u8]
        ensures { result.now ≡ self.now.written }
    {
        self.sink.bytes()
    }

    /// How many calls failed: none where none is listed and fewer bytes than the room are written.
    pub fn faults(&self) -> u64
        ensures count { result ≡ self.now.faults }
        ensures sure { (n : ℕ) → sure_room self.now.failing self.now.room ≡ Some n
            → length self.now.written < n → self.now.faults ≡ 0 }
    {
        self.faults
    }
}

impl Sink for MemorySink {
    ghost written = { λ s. Some s.written };

    ghost faults = { λ s. s.faults };

    ghost room = { λ s. sure_room s.failing s.room };

    fn write(&mut self, piece: &[u8]) -> Result<usize, Failed>
        ensures within { IfOk result (λ n. n ≤ length piece.now) }
        ensures some { IfOk result (λ n. 0 < length piece.now → 0 < n) }
        ensures taken { IfOk result (λ n.
            Appends (Some self.old.written) (Some self.new.written) (take n piece.now)) }
        ensures failed { OnErr result (IsUnchanged (Some self.old.written) (Some self.new.written)) }
        ensures cause { HasCause self.old.faults self.new.faults result }
        ensures unchanged { sure_room self.new.failing self.new.room
            ≡ sure_room self.old.failing self.old.room }

        ensures full { IsErr result
            ↔ (IsListed self.old.failing self.old.made
            ⊎ ((0 < length piece.now) × (length self.old.written ≡ self.old.room))) }
        ensures count { IfOk result (λ n.
            n ≡ portion self.old.step (self.old.room - length self.old.written) (length piece.now)) }
        ensures after { IfOk result (λ n.
            self.new
            ≡ record self.old { written = self.old.written ++ take n piece.now; made = raised self.old.made }) }
        ensures fault { OnErr result
            (self.new ≡ record self.old { made = raised self.old.made; faults = raised self.old.faults }) }
    {
        if self.calls.next_fails() {
            self.faults = self.faults.saturating_add(1);
            return Err(Failed);
        }
        match self.sink.write(piece) {
            Ok(count) => Ok(count),
            Err(Failed) => {
                self.faults = self.faults.saturating_add(1);
                Err(Failed)
            }
        }
    }
}
