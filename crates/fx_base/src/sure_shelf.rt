ghost use Rattle.std.specs.Prelude.{◌≡◌, ◌<◌, ◌≤◌, ◌+◌, ◌-◌, ◌↔◌, [], ◌∷◌, length, map, take, Some, true, false, IsErr, IsOk, IfOk, OnErr, OnOk, slice_get};
ghost use Rattle.fx_base.specs.Faults.{HasCause, IsUnchanged, raised};
ghost use Rattle.fx_base.specs.Acts.{Shelves, shelved, BeginFile, FileByte, EndFile};
ghost use Rattle.fx_base.specs.Memory.{ShelfInMemory, IsSureShelf, has_open, room_of, portion};

use crate::failed::Failed;
use crate::file_buffer::{FILE_ROOM, FileBuffer};
use crate::memory::NoMemory;
use crate::shelf::Shelf;
use std::alloc::Global;
use std::marker::Model;

/// A shelf in memory that fails exactly where its room is used up. A byte takes one byte of the
/// room, and a begun file takes 64.
#[derive(Drop)]
pub struct SureShelf {
    buffer: FileBuffer,
    step: usize,
    faults: u64,
}

impl Model for SureShelf {
    ghost Value = { ShelfInMemory };

    ghost view = { λ s. record {
      files = s.buffer.files;
      step = s.step;
      room = s.buffer.room;
      faults = s.faults;
    } };

    ghost invariant = { λ s. IsSureShelf s.buffer.files s.step s.buffer.room s.faults };
}

impl SureShelf {
    /// An empty shelf with `room` bytes of room, which takes at most `step` bytes in a call. All its
    /// memory is taken here.
    ///
    /// # Errors
    ///
    /// `NoMemory`: so much memory is not there.
    pub fn new(alloc: Global, step: usize, room: usize) -> Result<SureShelf, NoMemory>
        requires { 0 < step }
        ensures { IfOk result (λ s.
            s ≡ record { files = []; step = step; room = room; faults = 0 }) }
    {
        let buffer = FileBuffer::new(alloc, room)?;
        Ok(SureShelf {
            buffer,
            step,
            faults: 0,
        })
    }

    /// How many files there are.
    pub fn files(&self) -> usize
        ensures { result ≡ length self.now.files }
    {
        self.buffer.len()
    }

    /// The name of the file at `i`, counted from 0.
    pub fn name(&self, i: usize) -> &[u8]
        requires { i < length self.now.files }
        ensures { slice_get (map (λ f. f.name) self.now.files) i ≡ Some result.now }
    {
        self.buffer.name(i)
    }

    /// The bytes of the file at `i`, counted from 0.
    pub fn content(&self, i: usize) -> &[u8]
        requires { i < length self.now.files }
        ensures { slice_get (map (λ f. f.content) self.now.files) i ≡ Some result.now }
    {
        self.buffer.content(i)
    }

    /// Whether the file at `i`, counted from 0, is ended.
    pub fn is_ended(&self, i: usize) -> bool
        requires { i < length self.now.files }
        ensures { slice_get (map (λ f. f.ended) self.now.files) i ≡ Some result }
    {
        self.buffer.is_ended(i)
    }

    /// How many calls failed: none while the files leave room for one more.
    pub fn faults(&self) -> u64
        ensures count { result ≡ self.now.faults }
        ensures within { room_of self.now.files ≤ self.now.room }
        ensures sure { room_of self.now.files + 64 ≤ self.now.room → self.now.faults ≡ 0 }
    {
        self.faults
    }
}

impl Shelf for SureShelf {
    ghost files = { λ s. Some s.files };

    ghost begun = { λ s. has_open s.files };

    ghost faults = { λ s. s.faults };

    ghost room = { λ s. Some s.room };

    fn begin(&mut self, name: &[u8]) -> Result<(), Failed>
        requires none { has_open self.old.files ≡ false }
        requires name { (1 ≤ length name.now) × (length name.now ≤ 64) }
        ensures done { OnOk result
            (Shelves (Some self.old.files) (Some self.new.files) (BeginFile name.now ∷ [])) }
        ensures state { OnOk result (has_open self.new.files ≡ true) }
        ensures failed { OnErr result (IsUnchanged (Some self.old.files) (Some self.new.files)) }
        ensures cause { HasCause self.old.faults self.new.faults result }
        ensures unchanged { Some self.new.room ≡ Some self.old.room }

        ensures full { IsErr result ↔ (self.old.room < room_of self.old.files + 64) }
        ensures after { OnOk result
            (self.new ≡ record self.old { files = shelved (BeginFile name.now ∷ []) self.old.files }) }
        ensures room { OnOk result (room_of self.new.files ≡ room_of self.old.files + 64) }
        ensures fault { OnErr result
            (self.new ≡ record self.old { faults = raised self.old.faults }) }
    {
        if self.buffer.left() < FILE_ROOM {
            self.faults = self.faults.saturating_add(1);
            return Err(Failed);
        }
        self.buffer.begin(name);
        Ok(())
    }

    fn write(&mut self, piece: &[u8]) -> Result<usize, Failed>
        requires { has_open self.old.files ≡ true }
        ensures within { IfOk result (λ n. n ≤ length piece.now) }
        ensures some { IfOk result (λ n. 0 < length piece.now → 0 < n) }
        ensures taken { IfOk result (λ n.
            Shelves (Some self.old.files) (Some self.new.files) (map FileByte (take n piece.now))) }
        ensures state { OnOk result (has_open self.new.files ≡ true) }
        ensures failed { OnErr result (IsUnchanged (Some self.old.files) (Some self.new.files)) }
        ensures cause { HasCause self.old.faults self.new.faults result }
        ensures unchanged { Some self.new.room ≡ Some self.old.room }

        ensures full { IsErr result
            ↔ ((0 < length piece.now) × (room_of self.old.files ≡ self.old.room)) }
        ensures count { IfOk result (λ n.
            n ≡ portion self.old.step (self.old.room - room_of self.old.files) (length piece.now)) }
        ensures after { IfOk result (λ n.
            self.new
            ≡ record self.old { files = shelved (map FileByte (take n piece.now)) self.old.files }) }
        ensures room { IfOk result (λ n. room_of self.new.files ≡ room_of self.old.files + n) }
        ensures fault { OnErr result
            (self.new ≡ record self.old { faults = raised self.old.faults }) }
    {
        let count = self.step.min(self.buffer.left()).min(piece.len());
        if count == 0 && !piece.is_empty() {
            self.faults = self.faults.saturating_add(1);
            return Err(Failed);
        }
        self.buffer.append(&piece[..count]);
        Ok(count)
    }

    fn end(&mut self) -> Result<(), Failed>
        requires { has_open self.old.files ≡ true }
        ensures done { OnOk result
            (Shelves (Some self.old.files) (Some self.new.files) (EndFile ∷ [])) }
        ensures state { OnOk result (has_open self.new.files ≡ false) }
        ensures failed { OnErr result (IsUnchanged (Some self.old.files) (Some self.new.files)) }
        ensures cause { HasCause self.old.faults self.new.faults result }
        ensures unchanged { Some self.new.room ≡ Some self.old.room }

        ensures never { IsOk result }
        ensures after { self.new
            ≡ record self.old { files = shelved (EndFile ∷ []) self.old.files } }
        ensures room { room_of self.new.files ≡ room_of self.old.files }
    {
        self.buffer.end();
        Ok(())
    }
}
