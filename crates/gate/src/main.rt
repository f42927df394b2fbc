// The program `gate`: one gate between its standard input and its standard output, an event a line.
#![tactic(auto)]

mod state;

use anyhow::{Context, bail, ensure};
use protocol::Refusal;
use settings::Settings;
use state::{Answer, Gate, Missing};
use std::io::{BufRead, BufReader};
use std::process::ExitCode;
use std::{env, fs, mem};

// What was said on standard error so far: each thing that can't be done yet is named once. Two
// flags, and no set, which would need memory that may not be there.
#[derive(Default, Drop)]
struct Told {
    words: bool,
    packets: bool,
}

fn main(rt: HostRuntime) -> anyhow::Result<ExitCode> {
    if let Err(why) = run(&rt) {
        eprintln!(rt; "gate: {why}")?;
        return Ok(ExitCode::FAILURE);
    }
    Ok(ExitCode::SUCCESS)
}

// The path of the settings, the only argument.
fn settings_path(rt: &HostRuntime) -> anyhow::Result<String> {
    let mut args = env::args(rt)?.skip(1);
    let path = args
        .next()
        .context("the file of settings is missing; use: gate SETTINGS")?;
    ensure!(
        args.next().is_none(),
        "only one argument is taken so far; use: gate SETTINGS"
    );
    Ok(path)
}

// The settings in a file; those that are refused are named with what is wrong. Each error is two
// lines on standard error: the first, with the cause, is written here, since it may be long.
fn read_settings(rt: &HostRuntime, path: &str) -> anyhow::Result<Settings> {
    let bytes = match fs::read(rt, path) {
        Ok(bytes) => bytes,
        Err(why) => {
            eprintln!(rt; "gate: {path}: {why}")?;
            bail!("the settings can't be read");
        }
    };
    match settings::read(bytes.as_slice()) {
        Ok(settings) => Ok(settings),
        Err(fault) => {
            eprintln!(rt; "gate: {path}: {fault}")?;
            let refusal = fault.refusal();
            let number = u8::from(refusal);
            bail!("the settings are refused by {number}: {refusal}")
        }
    }
}

fn run(rt: &HostRuntime) -> anyhow::Result<()> {
    let path = settings_path(rt)?;
    let _settings = read_settings(rt, path.as_str())?;
    let mut gate = Gate::new(rt.alloc());
    let faults = read_events(rt, &mut gate)?;
    print_counts(rt, &gate)?;
    ensure!(faults == 0, "lines that can't be read: {faults}");
    Ok(())
}

// Hands each line of the input to the gate, and answers how many lines can't be read.
fn read_events(rt: &HostRuntime, gate: &mut Gate) -> anyhow::Result<u64> {
    let mut input = BufReader::new(rt.alloc(), rt.stdin())?;
    let mut line = Vec::new(rt.alloc());
    let mut told = Told::default();
    let mut faults = 0u64;
    // One buffer is used for all lines, where `split` makes one of each; the loop ends with the input.
    for number in 1..u64::MAX {
        line.clear();
        if input.read_until(b'\n', &mut line)? == 0 {
            break;
        }
        match gate.take_line(rt.alloc(), line.as_slice()) {
            Ok(answer) => tell(rt, answer, &mut told)?,
            Err(fault) => {
                faults = faults.saturating_add(1);
                eprintln!(rt; "gate: line {number}: {fault}")?;
            }
        }
    }
    Ok(faults)
}

// Says what can't be done yet, unless that was told before.
fn tell(rt: &HostRuntime, answer: Answer, told: &mut Told) -> anyhow::Result<()> {
    if let Answer::NotYet(missing) = answer {
        let told = match missing {
            Missing::Words => &mut told.words,
            Missing::Packets => &mut told.packets,
        };
        if !mem::replace(told, true) {
            eprintln!(rt; "gate: {missing}")?;
        }
    }
    Ok(())
}

fn print_counts(rt: &HostRuntime, gate: &Gate) -> anyhow::Result<()> {
    for refusal in Refusal::ALL {
        let number = u8::from(refusal);
        let count = gate.refused(refusal);
        println!(rt; "refused {number} {count}")?;
    }
    Ok(())
}
