ghost use Rattle.std.specs.Prelude.{◌≡◌, None};

use crate::folder::Folder;
use fx_base::Failed;
use std::fs::{File, Files};

/// The folder in which the program runs. Nothing is known of what it holds.
#[derive(Drop)]
pub struct CurrentFolder<'a, R: Files> {
    files: &'a R,
}

impl<'a, R: Files> CurrentFolder<'a, R> {
    /// The folder of this runtime.
    pub fn new(files: &'a R) -> CurrentFolder<'a, R>
        ensures { result.files.now ≡ files.now }
    {
        CurrentFolder { files }
    }
}

impl<R: Files> Folder for CurrentFolder<'_, R> {
    type Opened = R::File;

    ghost made = { λ _. None };

    /// A file of this name is replaced.
    fn create(&mut self, name: &[u8]) -> Result<R::File, Failed> {
        let Ok(path) = str::from_utf8(name) else {
            return Err(Failed);
        };
        match File::create(self.files, path) {
            Ok(file) => Ok(file),
            Err(_) => Err(Failed),
        }
    }

    /// The file is closed where it is dropped.
    fn close(&mut self, _name: &[u8], _file: R::File) {}
}
