ghost use Rattle.std.specs.Prelude.{◌≡◌, ◌<◌, ◌≤◌, ℕ, List, length, take, Option, None, IfOk, OnErr};
ghost use Rattle.fx_base.specs.Faults.{HasCause, IsUnchanged};
ghost use Rattle.fx_base.specs.Writing.{Appends};

use crate::failed::Failed;

/// Bytes that go out.
pub trait Sink {
    /// The bytes that were written, if the sink exposes them.
    ghost written: { Self → Option (List ℕ) };

    /// How many calls failed.
    ghost faults: { Self → ℕ };

    /// The room for bytes, where it is known that calls fail for want of room alone.
    ghost room: { Self → Option ℕ } = { λ _. None };

    /// Takes bytes of the front of the piece, and returns how many: at least one of a nonempty piece.
    fn write(&mut self, piece: &[u8]) -> Result<usize, Failed>
        ensures within { IfOk result (λ n. n ≤ length piece.now) }
        ensures some { IfOk result (λ n. 0 < length piece.now → 0 < n) }
        ensures taken { IfOk result (λ n.
            Appends (written self.old) (written self.new) (take n piece.now)) }
        ensures failed { OnErr result (IsUnchanged (written self.old) (written self.new)) }
        ensures cause { HasCause (faults self.old) (faults self.new) result }
        ensures unchanged { room self.new ≡ room self.old };
}
