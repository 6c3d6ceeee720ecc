ghost use Rattle.std.specs.Prelude.{◌≡◌, ◌<◌, ◌≤◌, ℕ, List, [], ◌∷◌, length, map, take, Option, None, Bool, true, false, IfOk, OnErr, OnOk};
ghost use Rattle.fx_base.specs.Faults.{HasCause, IsUnchanged};
ghost use Rattle.fx_base.specs.Acts.{File, Shelves, BeginFile, FileByte, EndFile};

use crate::failed::Failed;

/// Files that are made one after another.
pub trait Shelf {
    /// The files, if the shelf exposes them.
    ghost files: { Self → Option (List File) };

    /// Whether a file is begun and not ended.
    ghost begun: { Self → Bool };

    /// How many calls failed.
    ghost faults: { Self → ℕ };

    /// The room for files, where it is known that calls fail for want of room alone.
    ghost room: { Self → Option ℕ } = { λ _. None };

    /// Begins a file of this name, of 1 to 64 bytes, with no content.
    fn begin(&mut self, name: &[u8]) -> Result<(), Failed>
        requires none { begun self.old ≡ false }
        requires name { (1 ≤ length name.now) × (length name.now ≤ 64) }
        ensures done { OnOk result
            (Shelves (files self.old) (files self.new) (BeginFile name.now ∷ [])) }
        ensures state { OnOk result (begun self.new ≡ true) }
        ensures failed { OnErr result (IsUnchanged (files self.old) (files self.new)) }
        ensures cause { HasCause (faults self.old) (faults self.new) result }
        ensures unchanged { room self.new ≡ room self.old };

    /// Appends bytes of the front of the piece to the file that is begun, and returns how many: at
    /// least one of a nonempty piece.
    fn write(&mut self, piece: &[u8]) -> Result<usize, Failed>
        requires { begun self.old ≡ true }
        ensures within { IfOk result (λ n. n ≤ length piece.now) }
        ensures some { IfOk result (λ n. 0 < length piece.now → 0 < n) }
        ensures taken { IfOk result (λ n.
            Shelves (files self.old) (files self.new) (map FileByte (take n piece.now))) }
        ensures state { OnOk result (begun self.new ≡ true) }
        ensures failed { OnErr result (IsUnchanged (files self.old) (files self.new)) }
        ensures cause { HasCause (faults self.old) (faults self.new) result }
        ensures unchanged { room self.new ≡ room self.old };

    /// Ends the file that is begun.
    fn end(&mut self) -> Result<(), Failed>
        requires { begun self.old ≡ true }
        ensures done { OnOk result (Shelves (files self.old) (files self.new) (EndFile ∷ [])) }
        ensures state { OnOk result (begun self.new ≡ false) }
        ensures failed { OnErr result (IsUnchanged (files self.old) (files self.new)) }
        ensures cause { HasCause (faults self.old) (faults self.new) result }
        ensures unchanged { room self.new ≡ room self.old };
}
