ghost use Rattle.std.specs.Prelude.{◌≤◌};

use crate::current_folder::CurrentFolder;
use crate::folder_shelf::FolderShelf;
use crate::starting::start;
use std::env;
use std::thread::Threads;

/// Runs the program for the command line, from standard input to standard output, with the files in
/// the current folder, and returns its exit status. `threads` is the same runtime, which may start
/// threads in `main` alone.
pub fn run_standard<T: Threads + Sync>(rt: &HostRuntime, threads: &T) -> u8
    ensures { result ≤ 6 }
{
    let mut shelf = FolderShelf::new(CurrentFolder::new(rt));
    let ran = start(
        threads,
        rt.alloc(),
        env::args(rt),
        rt.stdin(),
        rt.stdout(),
        &mut shelf,
    );
    ran.status
}
