ghost use Rattle.std.specs.Prelude.{◌≡◌, ◌≤◌, ℕ, List, length, Option, IfOk, OnErr};
ghost use Rattle.fx_base.specs.Acts.{File};
ghost use Rattle.fx_base.specs.Faults.{IsUnchanged};
ghost use Rattle.fx_edge.specs.Folders.{Creates, Closes};

use fx_base::Failed;
use std::io::Write;

/// A folder in which files are made.
pub trait Folder {
    /// A file that is written.
    type Opened: Write + Drop;

    /// The files that were made and closed, if the folder exposes them.
    ghost made: { Self → Option (List File) };

    /// Makes an empty file of this name, of 1 to 64 bytes.
    fn create(&mut self, name: &[u8]) -> Result<Self::Opened, Failed>
        requires { (1 ≤ length name.now) × (length name.now ≤ 64) }
        ensures made { IfOk result (λ file.
            Creates (made self.old) (made self.new) (Self.Opened.contents file)) }
        ensures failed { OnErr result (IsUnchanged (made self.old) (made self.new)) };

    /// Closes the file of this name.
    fn close(&mut self, name: &[u8], file: Self::Opened)
        ensures { Closes (made self.old) (made self.new) name.now (Self.Opened.contents file) };
}
