//! Each call of a script, made on the bench and printed. Order and rule are parameters of each, as they are of the monitor's calls.
ghost use Rattle.std.specs.Prelude.{◌≤◌};
ghost use Rattle.bench.specs.Scripts.{ahead};

use crate::bench::{Bench, Replay};
use crate::command::{Command, request_of};
use crate::script::Script;
use crate::stop::Stop;
use block::Block;
use model::{Refusal, StartRefusal, answer_number, number_and_line};
use monitor::record::Record;
use monitor::topic::Question;
use monitor::{question, report};
use policy::{HouseRule, LevelOrder};
use std::io;
use std::io::Write;

/// The record of the request on the next line.
fn read_record(script: &mut Script<'_>) -> Result<Record, Stop>
    ensures { ahead script.new ≤ ahead script.old }
{
    let line = script.expect_line()?;
    let request = request_of(line).ok_or(script.fault())?;
    Ok(Record {
        request,
        answer: Ok(()),
    })
}

/// The records of a list, whose requests are the next lines.
fn read_records(rt: &HostRuntime, script: &mut Script<'_>, count: u32) -> Result<Vec<Record>, Stop>
    ensures { ahead script.new ≤ ahead script.old }
{
    let mut records = Vec::new(rt.alloc());
    for _ in 0..count {
        let record = read_record(script)?;
        records.push(record)?;
    }
    Ok(records)
}

fn print_start(rt: &HostRuntime, answer: Result<(), StartRefusal>) -> io::Result<()> {
    let (number, line) = number_and_line(answer);
    println!(rt; "start={number},{line}")
}

fn print_answer(rt: &HostRuntime, answer: Result<(), Refusal>) -> io::Result<()> {
    let number = answer_number(answer);
    println!(rt; "answer={number}")
}

fn print_list(rt: &HostRuntime, answer: Result<(), Refusal>, records: &[Record]) -> io::Result<()> {
    let number = answer_number(answer);
    println!(rt; "list={number}")?;
    if answer.is_ok() {
        for record in records {
            print_answer(rt, record.answer)?;
        }
    }
    Ok(())
}

fn print_refusal(rt: &HostRuntime, refusal: Refusal) -> io::Result<()> {
    let number = u8::from(refusal);
    println!(rt; "refused={number}")
}

fn print_truth(rt: &HostRuntime, truth: Result<bool, Refusal>) -> io::Result<()> {
    match truth {
        Ok(true) => println!(rt; "yes"),
        Ok(false) => println!(rt; "no"),
        Err(refusal) => print_refusal(rt, refusal),
    }
}

fn print_report(rt: &HostRuntime, block: &Block, length: u32) -> io::Result<()> {
    let mut buffer = vec![in rt.alloc(); 0; length as usize]?;
    match report(block, buffer.as_mut_slice()) {
        Ok(end) => {
            println!(rt; "report={end}")?;
            rt.stdout()
                .write_all(buffer.as_slice().get(0..end).unwrap_or(&[]))
        }
        Err(refusal) => print_refusal(rt, refusal),
    }
}

fn print_replay(rt: &HostRuntime, replay: Replay) -> io::Result<()> {
    let (count, accepted) = (replay.count, replay.accepted);
    println!(rt; "replay={count},{accepted}")?;
    if replay.stands {
        println!(rt; "stands=yes")
    } else {
        println!(rt; "stands=no")
    }
}

fn call<'a, O: LevelOrder, R: HouseRule>(
    rt: &HostRuntime,
    bench: &mut Bench<'a>,
    order: &O,
    rule: &R,
    command: Command,
    script: &mut Script<'a>,
) -> Result<(), Stop>
    ensures { ahead script.new ≤ ahead script.old }
{
    match command {
        Command::Start => print_start(rt, bench.start(order, rule, script.start_text()))?,
        Command::Request(q) => print_answer(rt, bench.request(order, rule, &q)?)?,
        Command::List(count) => {
            let mut records = read_records(rt, script, count)?;
            let answer = bench.list(order, rule, records.as_mut_slice())?;
            print_list(rt, answer, records.as_slice())?;
        }
        Command::Question(q) => print_truth(rt, question(&bench.block, order, &q))?,
        Command::Report(length) => print_report(rt, &bench.block, length)?,
        Command::Replay => print_replay(rt, bench.replay(order, rule))?,
    }
    Ok(())
}

/// Makes and prints the calls of a script, one after another.
pub(crate) fn run<'a, O: LevelOrder, R: HouseRule>(
    rt: &HostRuntime,
    order: &O,
    rule: &R,
    script: &mut Script<'a>,
) -> Result<(), Stop> {
    let mut bench = Bench::new(rt.alloc());
    while let Some(line) = script.next_line() {
        let command = Command::of(line).ok_or(script.fault())?;
        call(rt, &mut bench, order, rule, command, script)?;
    }
    Ok(())
}
