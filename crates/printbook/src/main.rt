// Reads a fit file from standard input and prints its book.
#![tactic(auto)]

use std::io;
use std::io::{Read, Write};

fn main(rt: HostRuntime) -> io::Result<()> {
    let mut input = Vec::new(rt.alloc());
    rt.stdin()
        .take(report::MOST as u64)
        .read_to_end(&mut input)?;
    let mut text = Vec::new(rt.alloc());
    report::print(&mut text, input.as_slice())?;
    rt.stdout().write_all(text.as_slice())
}
