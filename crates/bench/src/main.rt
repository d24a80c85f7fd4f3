//! The bench: runs a script of calls from standard input, and prints what each was answered.
//!
//! The first line says the level order, the second the house rule, and each other one call: `start` with a start text behind it,
//! `request`, `list` with its requests behind it, `question`, `report` or `replay`. A line of another form ends the run.
#![tactic(auto)]

mod bench;
mod calls;
mod command;
mod replay;
mod script;
mod stop;
mod terms;

use calls::run;
use policy::{Badges, Ladder, LevelOrder, Quota, Separation};
use script::Script;
use std::io;
use std::io::Read;
use stop::Stop;
use terms::Terms;

/// Runs the script under the rule that the next line says.
fn run_under_rule<O: LevelOrder>(
    rt: &HostRuntime,
    order: &O,
    script: &mut Script<'_>,
) -> Result<(), Stop> {
    let line = script.expect_line()?;
    match Terms::of(rt.alloc(), line)?.ok_or(script.fault())? {
        Terms::Separation(pairs) => {
            let rule = Separation::new(pairs.as_slice()).ok_or(script.fault())?;
            run(rt, order, &rule, script)
        }
        Terms::Quota(group, most) => {
            let rule = Quota::new(group, most).ok_or(script.fault())?;
            run(rt, order, &rule, script)
        }
    }
}

/// Runs the script under the order that the next line says.
fn run_under_order(rt: &HostRuntime, script: &mut Script<'_>) -> Result<(), Stop> {
    let line = script.expect_line()?;
    match line {
        b"order=ladder" => run_under_rule(rt, &Ladder, script),
        b"order=badges" => run_under_rule(rt, &Badges, script),
        _ => Err(script.fault()),
    }
}

fn main(rt: HostRuntime) -> io::Result<()> {
    let mut input: Vec<u8> = Vec::new(rt.alloc());
    rt.stdin().read_to_end(&mut input)?;
    let mut script = Script::new(input.as_slice());
    match run_under_order(&rt, &mut script) {
        Ok(()) => Ok(()),
        Err(Stop::Script(line)) => println!(rt; "script={line}"),
        Err(Stop::Io(error)) => Err(error),
    }
}
