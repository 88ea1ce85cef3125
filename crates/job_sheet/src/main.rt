// The job sheet program: reads a sheet from standard input, and prints what it gives to standard output.

#![tactic(auto)]

use jobsheet::{LIMIT, work};
use std::io::{BufReader, Read, Write};

// One byte more than a sheet may have tells that it is too long: what follows is not read.
const MOST: usize = LIMIT + 1;

fn main(rt: HostRuntime) -> anyhow::Result<()> {
    let mut text = Vec::with_capacity(rt.alloc(), MOST + 1)?;
    // Each read offers room for all that may come, since what a packet has beyond the room is lost.
    let input = rt.stdin().take(MOST as u64);
    BufReader::with_capacity(rt.alloc(), MOST, input)?.read_to_end(&mut text)?;
    let mut printed = Vec::new(rt.alloc());
    work(&text, &mut printed)?;
    rt.stdout().write_all(&printed)?;
    Ok(())
}
