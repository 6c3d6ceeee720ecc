ghost use Rattle.std.specs.Prelude.{◌≡◌, ◌<◌, ◌≤◌, ◌+◌, ◌-◌, ◌↔◌, ◌⊎◌, ℕ, [], ◌∷◌, length, map, take, Some, true, false, IsErr, IfOk, OnErr, OnOk, slice_get};
ghost use Rattle.fx_base.specs.Faults.{HasCause, IsUnchanged, raised};
ghost use Rattle.fx_base.specs.Acts.{Shelves, shelved, BeginFile, FileByte, EndFile};
ghost use Rattle.fx_base.specs.Memory.{FailingShelf, IsListed, sure_room, has_open, room_of, portion};

use crate::failed::Failed;
use crate::listed_calls::ListedCalls;
use crate::memory::NoMemory;
use crate::shelf::Shelf;
use crate::sure_shelf::SureShelf;
use crate::values::Bytes;
use std::alloc::Global;
use std::marker::Model;

/// A shelf in memory that fails exactly at listed calls and where its room is used up. A byte takes
/// one byte of the room, and a begun file takes 64.
pub struct MemoryShelf {
    shelf: SureShelf,
    calls: ListedCalls,
    faults: u64,
}

// Not derived, so that a place that drops one is proved with one call.
impl Drop for MemoryShelf {
    fn drop(self) {
        let MemoryShelf {
            shelf: _,
            calls: _,
            faults: _,
        } = self;
    }
}

impl Model for MemoryShelf {
    ghost Value = { FailingShelf };

    ghost view = { λ s. record {
      files = s.shelf.files;
      step = s.shelf.step;
      room = s.shelf.room;
      failing = s.calls.failing;
      made = s.calls.made;
      faults = s.faults;
    } };

    ghost invariant = { λ s. s.calls.failing ≡ []
        → room_of s.shelf.files + 64 ≤ s.shelf.room → s.faults ≡ 0 };
}

impl MemoryShelf {
    /// An empty shelf with `room` bytes of room, which takes at most `step` bytes in a call, and
    /// fails at the calls whose numbers, counted from 1, are in `failing`. All its memory is taken
    /// here.
    ///
    /// # Errors
    ///
    /// `NoMemory`: so much memory is not there.
    pub fn new(
        alloc: Global,
        step: usize,
        room: usize,
        failing: Bytes,
    ) -> Result<MemoryShelf, NoMemory>
        requires { 0 < step }
        ensures { IfOk result (λ s.
            s ≡ record { files = []; step = step; room = room; failing = failing; made = 0; faults = 0 }) }
    {
        let shelf = SureShelf::new(alloc, step, room)?;
        Ok(MemoryShelf {
            shelf,
            calls: ListedCalls::new(failing),
            faults: 0,
        })
    }

    /// How many files there are.
    pub fn files(&self) -> usize
        ensures { result ≡ length self.now.files }
    {
        self.shelf.files()
    }

    /// The name of the file at `i`, counted from 0.
    pub fn name(&self, i: usize) -> &[u8]
        requires { i < length self.now.files }
        ensures { slice_get (map (λ f. f.name) self.now.files) i ≡ Some result.now }
    {
        self.shelf.name(i)
    }

    /// The bytes of the file at `i`, counted from 0.
    pub fn content(&self, i: usize) -> &[u8]
        requires { i < length self.now.files }
        ensures { slice_get (map (λ f. f.content) self.now.files) i ≡ Some result.now }
    {
        self.shelf.content(i)
    }

    /// Whether the file at `i`, counted from 0, is ended.
    pub fn is_ended(&self, i: usize) -> bool
        requires { i < length self.now.files }
        ensures { slice_get (map (λ f. f.ended) self.now.files) i ≡ Some result }
    {
        self.shelf.is_ended(i)
    }

    /// How many calls failed: none where none is listed and the files leave room for one more.
    pub fn faults(&self) -> u64
        ensures count { result ≡ self.now.faults }
        ensures sure { (n : ℕ) → sure_room self.now.failing self.now.room ≡ Some n
            → room_of self.now.files + 64 ≤ n → self.now.faults ≡ 0 }
    {
        self.faults
    }
}

impl Shelf for MemoryShelf {
    ghost files = { λ s. Some s.files };

    ghost begun = { λ s. has_open s.files };

    ghost faults = { λ s. s.faults };

    ghost room = { λ s. sure_room s.failing s.room };

    fn begin(&mut self, name: &[u8]) -> Result<(), Failed>
        requires none { has_open self.old.files ≡ false }
        requires name { (1 ≤ length name.now) × (length name.now ≤ 64) }
        ensures done { OnOk result
            (Shelves (Some self.old.files) (Some self.new.files) (BeginFile name.now ∷ [])) }
        ensures state { OnOk result (has_open self.new.files ≡ true) }
        ensures failed { OnErr result (IsUnchanged (Some self.old.files) (Some self.new.files)) }
        ensures cause { HasCause self.old.faults self.new.faults result }
        ensures unchanged { sure_room self.new.failing self.new.room
            ≡ sure_room self.old.failing self.old.room }

        ensures full { IsErr result
            ↔ (IsListed self.old.failing self.old.made ⊎ (self.old.room < room_of self.old.files + 64)) }
        ensures after { OnOk result
            (self.new
            ≡ record self.old { files = shelved (BeginFile name.now ∷ []) self.old.files; made = raised self.old.made }) }
        ensures room { OnOk result (room_of self.new.files ≡ room_of self.old.files + 64) }
        ensures fault { OnErr result
            (self.new ≡ record self.old { made = raised self.old.made; faults = raised self.old.faults }) }
    {
        if self.calls.next_fails() {
            self.faults = self.faults.saturating_add(1);
            return Err(Failed);
        }
        match self.shelf.begin(name) {
            Ok(()) => Ok(()),
            Err(Failed) => {
                self.faults = self.faults.saturating_add(1);
                Err(Failed)
            }
        }
    }

    fn write(&mut self, piece: &[u8]) -> Result<usize, Failed>
        requires { has_open self.old.files ≡ true }
        ensures within { IfOk result (λ n. n ≤ length piece.now) }
        ensures some { IfOk result (λ n. 0 < length piece.now → 0 < n) }
        ensures taken { IfOk result (λ n.
            Shelves (Some self.old.files) (Some self.new.files) (map FileByte (take n piece.now))) }
        ensures state { OnOk result (has_open self.new.files ≡ true) }
        ensures failed { OnErr result (IsUnchanged (Some self.old.files) (Some self.new.files)) }
        ensures cause { HasCause self.old.faults self.new.faults result }
        ensures unchanged { sure_room self.new.failing self.new.room
            ≡ sure_room self.old.failing self.old.room }

        ensures full { IsErr result
            ↔ (IsListed self.old.failing self.old.made
            ⊎ ((0 < length piece.now) × (room_of self.old.files ≡ self.old.room))) }
        ensures count { IfOk result (λ n.
            n ≡ portion self.old.step (self.old.room - room_of self.old.files) (length piece.now)) }
        ensures after { IfOk result (λ n.
            self.new
            ≡ record self.old { files = shelved (map FileByte (take n piece.now)) self.old.files; made = raised self.old.made }) }
        ensures room { IfOk result (λ n. room_of self.new.files ≡ room_of self.old.files + n) }
        ensures fault { OnErr result
            (self.new ≡ record self.old { made = raised self.old.made; faults = raised self.old.faults }) }
    {
        if self.calls.next_fails() {
            self.faults = self.faults.saturating_add(1);
            return Err(Failed);
        }
        match self.shelf.write(piece) {
            Ok(count) => Ok(count),
            Err(Failed) => {
                self.faults = self.faults.saturating_add(1);
                Err(Failed)
            }
        }
    }

    fn end(&mut self) -> Result<(), Failed>
        requires { has_open self.old.files ≡ true }
        ensures done { OnOk result
            (Shelves (Some self.old.files) (Some self.new.files) (EndFile ∷ [])) }
        ensures state { OnOk result (has_open self.new.files ≡ false) }
        ensures failed { OnErr result (IsUnchanged (Some self.old.files) (Some self.new.files)) }
        ensures cause { HasCause self.old.faults self.new.faults result }
        ensures unchanged { sure_room self.new.failing self.new.room
            ≡ sure_room self.old.failing self.old.room }

        ensures listed { IsErr result ↔ IsListed self.old.failing self.old.made }
        ensures after { OnOk result
            (self.new
            ≡ record self.old { files = shelved (EndFile ∷ []) self.old.files; made = raised self.old.made }) }
        ensures room { room_of self.new.files ≡ room_of self.old.files }
        ensures fault { OnErr result
            (self.new ≡ record self.old { made = raised self.old.made; faults = raised self.old.faults }) }
    {
        if self.calls.next_fails() {
            self.faults = self.faults.saturating_add(1);
            return Err(Failed);
        }
        self.shelf.end()
    }
}
