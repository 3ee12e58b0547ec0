// Reads the lines of an archive on standard input, and prints the report on them.
#![tactic(auto)]

use archive::report::report;
use std::io;
use std::io::{Read, Write};

fn main(rt: HostRuntime) -> io::Result<()> {
    let mut input = Vec::new(rt.alloc());
    rt.stdin().read_to_end(&mut input)?;
    let output = report(rt.alloc(), input.as_slice())?;
    rt.stdout().write_all(output.as_slice())
}
