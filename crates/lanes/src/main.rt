// Reads a task sheet from standard input and prints what it holds and where its tasks are placed.
#![tactic(auto)]

mod listing;
mod text;

use listing::listing;
use std::io;
use std::io::Write;
use words::input::first_bytes;

// The most bytes of input that are read as a sheet.
const MOST_BYTES: usize = 4096;

fn main(rt: HostRuntime) -> io::Result<()> {
    let input = first_bytes(rt.alloc(), &mut rt.stdin(), MOST_BYTES)?;
    let text = listing(rt.alloc(), input.as_slice())?;
    rt.stdout().write_all(&text)
}
