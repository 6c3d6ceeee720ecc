ghost use Rattle.std.specs.Prelude.{◌≡◌, ◌<◌, ◌≤◌, ◌++◌, ◌↔◌, true, length, take, drop, Some, IsErr, IfOk, OnErr};
ghost use Rattle.fx_base.specs.Faults.{HasCause, IsUnchanged, raised};
ghost use Rattle.fx_base.specs.Reading.{Takes};
ghost use Rattle.fx_base.specs.Memory.{FailingSource, IsListed, none_listed, portion};

use crate::failed::Failed;
use crate::listed_calls::ListedCalls;
use crate::source::Source;
use crate::sure_source::SureSource;
use crate::values::Bytes;
use std::marker::Model;

/// A source in memory that fails exactly at listed calls.
pub struct MemorySource {
    source: SureSource,
    calls: ListedCalls,
    faults: u64,
}

// Not derived, so that a place that drops one is proved with one call.
impl Drop for MemorySource {
    fn drop(self) {
        let MemorySource {
            source: _,
            calls: _,
            faults: _,
        } = self;
    }
}

impl Model for MemorySource {
    ghost Value = { FailingSource };

    ghost view = { λ s. record {
      left = s.source.left;
      step = s.source.step;
      failing = s.calls.failing;
      made = s.calls.made;
      faults = s.faults;
    } };

    ghost invariant = { λ s. none_listed s.calls.failing ≡ true → s.faults ≡ 0 };
}

impl MemorySource {
    /// A source of these bytes, which returns at most `step` of them in a call, and fails at the calls
    /// whose numbers, counted from 1, are in `failing`.
    pub fn new(content: Bytes, step: usize, failing: Bytes) -> MemorySource
        requires { 0 < step }
        ensures { result
            ≡ record { left = content; step = step; failing = failing; made = 0; faults = 0 } }
    {
        MemorySource {
            source: SureSource::new(content, step),
            calls: ListedCalls::new(failing),
            faults: 0,
        }
    }

    /// How many calls failed: none where none is listed.
    pub fn faults(&self) -> u64
        ensures count { result ≡ self.now.faults }
        ensures sure { none_listed self.now.failing ≡ true → self.now.faults ≡ 0 }
    {
        self.faults
    }
}

impl Source for MemorySource {
    ghost left = { λ s. Some s.left };

    ghost faults = { λ s. s.faults };

    ghost sure = { λ s. none_listed s.failing };

    fn read(&mut self, to: &mut [u8]) -> Result<usize, Failed>
        ensures within { IfOk result (λ n. n ≤ length to.new) }
        ensures taken { IfOk result (λ n.
            Takes (Some self.old.left) (Some self.new.left) to.new n) }
        ensures failed { OnErr result (IsUnchanged (Some self.old.left) (Some self.new.left)) }
        ensures cause { HasCause self.old.faults self.new.faults result }
        ensures unchanged { none_listed self.new.failing ≡ none_listed self.old.failing }

        ensures listed { IsErr result ↔ IsListed self.old.failing self.old.made }
        ensures count { IfOk result (λ n.
            n ≡ portion self.old.step (length self.old.left) (length to.old)) }
        ensures given { IfOk result (λ n. to.new ≡ take n self.old.left ++ drop n to.old) }
        ensures after { IfOk result (λ n.
            self.new
            ≡ record self.old { left = drop n self.old.left; made = raised self.old.made }) }
        ensures untouched { OnErr result (to.new ≡ to.old) }
        ensures fault { OnErr result
            (self.new ≡ record self.old { made = raised self.old.made; faults = raised self.old.faults }) }
    {
        if self.calls.next_fails() {
            self.faults = self.faults.saturating_add(1);
            return Err(Failed);
        }
        self.source.read(to)
    }
}
