ghost use Rattle.std.specs.Prelude.{◌≡◌, ◌≤◌, take, false};
ghost use Rattle.fx_edge.specs.Folders.{all_files, has_file};

use crate::folder::Folder;
use fx_base::{Failed, Shelf};
use std::io::Write;

/// A file that is begun, and its name, of at most 64 bytes.
#[derive(Drop)]
struct Begun<W: Write + Drop> {
    name: [u8; 64],
    length: usize,
    file: W,
    ghost short: { length ≤ 64 },
}

/// A shelf that makes its files in a folder.
#[derive(Drop)]
pub struct FolderShelf<D: Folder> {
    folder: D,
    begun: Option<Begun<D::Opened>>,
    faults: u64,
}

impl<D: Folder> FolderShelf<D> {
    /// A shelf over this folder, with no file begun.
    pub fn new(folder: D) -> FolderShelf<D>
        ensures folder { result.folder ≡ folder }
        ensures begun { has_file result.begun ≡ false }
        ensures faults { result.faults ≡ 0 }
    {
        FolderShelf {
            folder,
            begun: None,
            faults: 0,
        }
    }
}

impl<D: Folder> Shelf for FolderShelf<D> {
    ghost files = { λ s. all_files (λ b. take b.length b.name)
        (λ b. D.Opened.contents b.file) (D.made s.folder) s.begun };

    ghost begun = { λ s. has_file s.begun };

    ghost faults = { λ s. s.faults };

    fn begin(&mut self, name: &[u8]) -> Result<(), Failed> {
        let mut kept = [0u8; 64];
        let length = name.len();
        kept[..length].copy_from_slice(name);
        match self.folder.create(name) {
            Ok(file) => {
                self.begun = Some(Begun {
                    name: kept,
                    length,
                    file,
                });
                Ok(())
            }
            Err(Failed) => {
                self.faults = self.faults.saturating_add(1);
                Err(Failed)
            }
        }
    }

    fn write(&mut self, piece: &[u8]) -> Result<usize, Failed> {
        match self.begun.take() {
            Some(mut begun) => {
                let answer = begun.file.write(piece);
                self.begun = Some(begun);
                match answer {
                    Ok(count) if count > 0 || piece.is_empty() => Ok(count),
                    _ => {
                        self.faults = self.faults.saturating_add(1);
                        Err(Failed)
                    }
                }
            }
            None => unreachable!(),
        }
    }

    fn end(&mut self) -> Result<(), Failed> {
        match self.begun.take() {
            Some(begun) => {
                let Begun { name, length, file } = begun;
                self.folder.close(&name[..length], file);
                Ok(())
            }
            None => unreachable!(),
        }
    }
}
