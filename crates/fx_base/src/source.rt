ghost use Rattle.std.specs.Prelude.{◌≡◌, ◌≤◌, ℕ, List, length, Option, Bool, false, IfOk, OnErr};
ghost use Rattle.fx_base.specs.Faults.{HasCause, IsUnchanged};
ghost use Rattle.fx_base.specs.Reading.{Takes};

use crate::failed::Failed;

/// Bytes that are read.
pub trait Source {
    /// The bytes that are left, if the source exposes them.
    ghost left: { Self → Option (List ℕ) };

    /// How many calls failed.
    ghost faults: { Self → ℕ };

    /// Whether it is known that no call fails.
    ghost sure: { Self → Bool } = { λ _. false };

    /// Puts bytes at the front of `to`, and returns how many. Returns 0 only at the end of the input, unless
    /// `to` is empty.
    fn read(&mut self, to: &mut [u8]) -> Result<usize, Failed>
        ensures within { IfOk result (λ n. n ≤ length to.new) }
        ensures taken { IfOk result (λ n. Takes (left self.old) (left self.new) to.new n) }
        ensures failed { OnErr result (IsUnchanged (left self.old) (left self.new)) }
        ensures cause { HasCause (faults self.old) (faults self.new) result }
        ensures unchanged { sure self.new ≡ sure self.old };
}
