ghost use Rattle.std.specs.Prelude.{◌≡◌, ◌<◌, ◌≤◌, ◌++◌, length, take, drop, Some, true, IsOk, IfOk, OnErr};
ghost use Rattle.fx_base.specs.Faults.{HasCause, IsUnchanged};
ghost use Rattle.fx_base.specs.Reading.{Takes};
ghost use Rattle.fx_base.specs.Memory.{SourceInMemory, portion};

use crate::failed::Failed;
use crate::source::Source;
use crate::values::Bytes;
use std::marker::Model;

/// A source in memory that never fails.
#[derive(Drop)]
pub struct SureSource {
    content: Bytes,
    at: usize,
    step: usize,
}

impl Model for SureSource {
    ghost use Rattle.std.specs.Prelude.{◌<◌, ◌≤◌, length, drop};
    ghost use Rattle.fx_base.specs.Memory.{SourceInMemory};

    ghost Value = { SourceInMemory };

    ghost view = { λ s. record { left = drop s.at s.content; step = s.step } };

    ghost invariant = { λ s. (s.at ≤ length s.content) × (0 < s.step) };
}

impl SureSource {
    /// A source of these bytes, which returns at most `step` of them in a call.
    pub fn new(content: Bytes, step: usize) -> SureSource
        requires { 0 < step }
        ensures { result ≡ record { left = content; step = step } }
    {
        SureSource {
            content,
            at: 0,
            step,
        }
    }
}

impl Source for SureSource {
    ghost left = { λ s. Some s.left };

    ghost faults = { λ _. 0 };

    ghost sure = { λ _. true };

    fn read(&mut self, to: &mut [u8]) -> Result<usize, Failed>
        ensures within { IfOk result (λ n. n ≤ length to.new) }
        ensures taken { IfOk result (λ n.
            Takes (Some self.old.left) (Some self.new.left) to.new n) }
        ensures failed { OnErr result (IsUnchanged (Some self.old.left) (Some self.new.left)) }
        ensures cause { HasCause 0 0 result }

        ensures never { IsOk result }
        ensures count { IfOk result (λ n.
            n ≡ portion self.old.step (length self.old.left) (length to.old)) }
        ensures given { IfOk result (λ n. to.new ≡ take n self.old.left ++ drop n to.old) }
        ensures after { IfOk result (λ n.
            self.new ≡ record self.old { left = drop n self.old.left }) }
    {
        let there = self.content.len() - self.at;
        let count = self.step.min(there).min(to.len());
        let end = self.at + count;
        to[..count].copy_from_slice(&self.content.as_slice()[self.at..end]);
        self.at = end;
        Ok(count)
    }
}
