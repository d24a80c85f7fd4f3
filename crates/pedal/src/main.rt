//! The pedal: a start text and requests on standard input, answers and the report on standard output.
#![tactic(auto)]

use console::run;
use std::io;
use std::io::{Read, Write};

fn main(rt: HostRuntime) -> io::Result<()> {
    let mut input: Vec<u8> = Vec::new(rt.alloc());
    rt.stdin().read_to_end(&mut input)?;
    let printed = run(rt.alloc(), input.as_slice())?;
    rt.stdout().write_all(printed.as_slice())
}
