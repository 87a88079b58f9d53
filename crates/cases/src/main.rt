// Prints the book of each fit file that the arguments name.
#![tactic(auto)]

use std::io::Write;
use std::{env, fs, io};

#[cfg(test)]
mod calculating;
#[cfg(test)]
mod lines;
#[cfg(test)]
mod reading;

fn main(rt: HostRuntime) -> io::Result<()> {
    for name in env::args(&rt)?.skip(1) {
        let input = fs::read(&rt, name.as_str())?;
        let mut text = Vec::new(rt.alloc());
        report::print(&mut text, input.as_slice())?;
        print!(rt; "{name}: ")?;
        rt.stdout().write_all(text.as_slice())?;
    }
    Ok(())
}
