//! Runs the cases in `data/`: each `NAME.in` has to print `NAME.out`. Prints the names of those that differ, and how many there are.
#![tactic(auto)]

use console::run;
use std::{fs, io};

/// Whether the case prints what it should.
fn agrees(rt: &HostRuntime, name: &str) -> io::Result<bool> {
    let input = fs::read(rt, format!(in rt.alloc(); "{name}.in")?)?;
    let expected = fs::read(rt, format!(in rt.alloc(); "{name}.out")?)?;
    let printed = run(rt.alloc(), input.as_slice())?;
    Ok(printed.as_slice() == expected.as_slice())
}

fn main(rt: HostRuntime) -> io::Result<()> {
    let names = fs::read_to_string(&rt, "names")?;
    let mut differ = 0u32;
    let mut count = 0u32;
    for name in names.as_str().lines() {
        count = count.saturating_add(1);
        if !agrees(&rt, name)? {
            differ = differ.saturating_add(1);
            println!(rt; "{name} differs")?;
        }
    }
    println!(rt; "{count} cases, {differ} differ")
}
