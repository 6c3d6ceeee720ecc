//! Runs the example programs that it is given by name, and prints the listing, the files and the status
//! of each; of a book it prints what `check` lists, and a plan it judges at two levels. The gate compares
//! what it prints with `stdout`.
#![tactic(auto)]

use fx_base::{Bytes, MemorySink, MemorySource, SureShelf};
use fx_program::factex;
use std::alloc::{AllocError, Global};
use std::rt::{Env, Files};
use std::thread::Threads;
use std::{env, fs, io};

/// How many bytes the source gives at a call, and the listing and the files take.
const STEP: usize = 4096;

/// How many bytes a listing has at most, and all files together.
const ROOM: usize = 1048576;

/// What an example came to.
#[derive(Drop)]
struct Ended {
    status: u8,
    listing: String,
    shelf: SureShelf,
}

fn main(rt: HostRuntime) -> io::Result<()> {
    run_examples(&rt)
}

fn run_examples<R: Env + Files + Print + AllocGlobal + Threads + Sync>(rt: &R) -> io::Result<()> {
    for name in env::args(rt)?.skip(1) {
        let text = fs::read(rt, name.as_str())?;
        let ended = if name.as_str().ends_with(".csv") {
            ran(rt, rt.alloc(), &[b"judge", b"2"], text)?
        } else {
            ran(rt, rt.alloc(), &[b"run"], text)?
        };
        println!(rt; "== {name}")?;
        rt.print(ended.listing.as_str())?;
        print_files(rt, &ended.shelf)?;
        println!(rt; "status {}", ended.status)?;
    }
    Ok(())
}

/// Prints each file of the shelf, its name before it.
fn print_files<R: Print + AllocGlobal + Threads + Sync>(
    rt: &R,
    shelf: &SureShelf,
) -> io::Result<()> {
    for i in 0..shelf.files() {
        let name = String::from_utf8_lossy(rt.alloc(), shelf.name(i))?;
        println!(rt; "file {name}")?;
        if name.as_str().ends_with(".book") {
            let checked = ran(
                rt,
                rt.alloc(),
                &[b"check"],
                shelf.content(i).to_vec(rt.alloc())?,
            )?;
            rt.print(checked.listing.as_str())?;
        } else {
            let content = String::from_utf8_lossy(rt.alloc(), shelf.content(i))?;
            rt.print(content.as_str())?;
        }
    }
    Ok(())
}

/// What the program under these words comes to for this text.
fn ran<R: Threads + Sync>(
    rt: &R,
    alloc: Global,
    command: &[&[u8]],
    text: Vec<u8>,
) -> Result<Ended, AllocError> {
    let mut words = Vec::new(alloc);
    for word in command {
        words.push(word.to_vec(alloc)?)?;
    }
    let mut source = MemorySource::new(Bytes::from_vec(text), STEP, Bytes::new(alloc));
    let (Ok(mut listing), Ok(mut shelf)) = (
        MemorySink::new(alloc, STEP, ROOM, Bytes::new(alloc)),
        SureShelf::new(alloc, STEP, ROOM),
    ) else {
        return Err(AllocError);
    };
    let status = factex(
        rt,
        alloc,
        words.as_slice(),
        &mut source,
        &mut listing,
        &mut shelf,
    );
    let listing = String::from_utf8_lossy(alloc, listing.bytes())?;
    Ok(Ended {
        status,
        listing,
        shelf,
    })
}
