// Reads a recorded day from standard input and prints the answer to each of its calls.
#![tactic(auto)]

use script::day::replay;
use std::io;
use std::io::Write;
use words::input::first_bytes;

// The most bytes of input that are read.
const MOST_BYTES: usize = 65_536;

fn main(rt: HostRuntime) -> io::Result<()> {
    let input = first_bytes(rt.alloc(), &mut rt.stdin(), MOST_BYTES)?;
    let text = replay(rt.alloc(), input.as_slice())?;
    rt.stdout().write_all(&text)
}
