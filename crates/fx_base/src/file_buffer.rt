ghost use Rattle.std.specs.Prelude.{◌≡◌, ◌<◌, ◌≤◌, ◌+◌, ◌-◌, [], ◌∷◌, length, map, take, drop, Some, true, false, IfOk, slice_get};
ghost use Rattle.fx_base.specs.Acts.{shelved, BeginFile, FileByte, EndFile};
ghost use Rattle.fx_base.specs.Memory.{has_open, room_of};

use crate::file_bounds::FileBounds;
use crate::memory::NoMemory;
use std::alloc::Global;
use std::marker::Model;

/// The room that a file takes beside its content.
pub const FILE_ROOM: usize = 64;

/// Files that lie one after another in one buffer, whose memory is taken when it is made.
pub struct FileBuffer {
    bytes: Vec<u8>,
    bounds: Vec<FileBounds>,
    used: usize,
    room: usize,
}

// Not derived, so that a place that drops one is proved with one call.
impl Drop for FileBuffer {
    fn drop(self) {
        let FileBuffer {
            bytes: _,
            bounds: _,
            used: _,
            room: _,
        } = self;
    }
}

impl Model for FileBuffer {
    ghost use Rattle.std.specs.Prelude.{map, vec_capacity};
    ghost use Rattle.fx_base.specs.Memory.{FilesInMemory};
    ghost use Rattle.fx_base.specs.FileBounds.{file_at, IsFileBuffer};

    ghost Value = { FilesInMemory };

    ghost view = { λ b. record {
      files = map (file_at b.bytes.items) b.bounds.items;
      room = b.room;
    } };

    ghost invariant = { λ b. IsFileBuffer b.bytes.items b.bounds.items
        (vec_capacity b.bytes) (vec_capacity b.bounds) b.used b.room };
}

impl FileBuffer {
    /// An empty buffer with `room` bytes of room.
    pub fn new(alloc: Global, room: usize) -> Result<FileBuffer, NoMemory>
        ensures { IfOk result (λ b. b ≡ record { files = []; room = room }) }
    {
        let bytes = match Vec::with_capacity(alloc, room) {
            Ok(bytes) => bytes,
            Err(_) => return Err(NoMemory),
        };
        let bounds = match Vec::with_capacity(alloc, room / FILE_ROOM) {
            Ok(bounds) => bounds,
            Err(_) => return Err(NoMemory),
        };
        Ok(FileBuffer {
            bytes,
            bounds,
            used: 0,
            room,
        })
    }

    /// The room that is left.
    pub fn left(&self) -> usize
        ensures left { result ≡ self.now.room - room_of self.now.files }
        ensures fits { room_of self.now.files ≤ self.now.room }
    {
        self.room - self.used
    }

    /// Begins a file.
    pub fn begin(&mut self, name: &[u8])
        requires name { length name.now ≤ 64 }
        requires room { room_of self.old.files + 64 ≤ self.old.room }
        ensures after { self.new
            ≡ record self.old { files = shelved (BeginFile name.now ∷ []) self.old.files } }
        ensures begun { has_open self.new.files ≡ true }
        ensures taken { room_of self.new.files ≡ room_of self.old.files + 64 }
    {
        let from = self.bytes.len();
        match self.bytes.extend_from_slice(name) {
            Ok(()) => {}
            Err(_) => unreachable!(),
        }
        let end = self.bytes.len();
        self.bounds.push_reserved(FileBounds {
            name: from,
            content: end,
            end,
            ended: false,
        });
        self.used += FILE_ROOM;
    }

    /// Appends the piece to the file that is begun.
    pub fn append(&mut self, piece: &[u8])
        requires begun { has_open self.old.files ≡ true }
        requires room { room_of self.old.files + length piece.now ≤ self.old.room }
        ensures after { self.new
            ≡ record self.old { files = shelved (map FileByte piece.now) self.old.files } }
        ensures begun { has_open self.new.files ≡ true }
        ensures taken { room_of self.new.files ≡ room_of self.old.files + length piece.now }
    {
        match self.bytes.extend_from_slice(piece) {
            Ok(()) => {}
            Err(_) => unreachable!(),
        }
        self.used += piece.len();
        let end = self.bytes.len();
        match self.bounds.pop() {
            Some(last) => self.bounds.push_reserved(FileBounds { end, ..last }),
            None => unreachable!(),
        }
    }

    /// Ends the file that is begun.
    pub fn end(&mut self)
        requires { has_open self.old.files ≡ true }
        ensures after { self.new
            ≡ record self.old { files = shelved (EndFile ∷ []) self.old.files } }
        ensures ended { has_open self.new.files ≡ false }
        ensures taken { room_of self.new.files ≡ room_of self.old.files }
    {
        match self.bounds.pop() {
            Some(last) => self.bounds.push_reserved(FileBounds {
                ended: true,
                ..last
            }),
            None => unreachable!(),
        }
    }

    /// How many files there are.
    pub fn len(&self) -> usize
        ensures { result ≡ length self.now.files }
    {
        self.bounds.len()
    }

    /// The name of the file at `i`, counted from 0.
    pub fn name(&self, i: usize) -> &[u8]
        requires { i < length self.now.files }
        ensures { slice_get (map (λ f. f.name) self.now.files) i ≡ Some result.now }
    {
        let at = self.bounds[i];
        part(&self.bytes, at.name, at.content)
    }

    /// The bytes of the file at `i`, counted from 0.
    pub fn content(&self, i: usize) -> &[u8]
        requires { i < length self.now.files }
        ensures { slice_get (map (λ f. f.content) self.now.files) i ≡ Some result.now }
    {
        let at = self.bounds[i];
        part(&self.bytes, at.content, at.end)
    }

    /// Whether the file at `i`, counted from 0, is ended.
    pub fn is_ended(&self, i: usize) -> bool
        requires { i < length self.now.files }
        ensures { slice_get (map (λ f. f.ended) self.now.files) i ≡ Some result }
    {
        self.bounds[i].ended
    }
}

/// The bytes from one place to another.
fn part(bytes: &[u8], from: usize, to: usize) -> &[u8]
    requires order { from ≤ to }
    requires within { to ≤ length bytes.now }
    ensures { result.now ≡ take (to - from) (drop from bytes.now) }
{
    &bytes[from..to]
}
