// The program `plan`: makes the settings of all gates from a text and drawn bytes, shows a file of
// settings without its keys, and checks one.
#![tactic(auto)]

mod addresses;
mod faults;
mod showing;
mod text;

use anyhow::anyhow;
use lines::encode;
use settings::{DRAWN, Plan, Settings, make_all, read};
use showing::show;
use std::fmt::Display;
use std::fs::File;
use std::io::{Read, Write};
use std::process::ExitCode;
use std::{env, fs};
use text::Draft;

const USE: &str = "use: plan make PLAN FOLDER [DRAWN], plan show SETTINGS, plan check SETTINGS";

const UNREAD: &str = "the plan can't be read";

fn main(rt: HostRuntime) -> anyhow::Result<ExitCode> {
    if let Err(why) = run(&rt) {
        eprintln!(rt; "plan: {why}")?;
        return Ok(ExitCode::FAILURE);
    }
    Ok(ExitCode::SUCCESS)
}

fn run(rt: &HostRuntime) -> anyhow::Result<()> {
    let mut args = env::args(rt)?;
    let _program = args.next();
    // One by one: with `array::from_fn` over `args` the check makes no proof of `run`.
    let (Some(command), Some(path), third, fourth, None) = (
        args.next(),
        args.next(),
        args.next(),
        args.next(),
        args.next(),
    ) else {
        return Err(anyhow!(USE));
    };
    match (command.as_str(), third, fourth) {
        ("make", Some(folder), drawn) => make(rt, path.as_str(), &folder, drawn),
        ("show", None, None) => show(rt, &read_settings(rt, path.as_str())?),
        ("check", None, None) => check(rt, path.as_str()),
        _ => Err(anyhow!(USE)),
    }
}

// Says what is wrong with a file, and ends with a sentence of its own.
fn refuse<T>(
    rt: &HostRuntime,
    path: &str,
    why: impl Display + Drop,
    end: &str,
) -> anyhow::Result<T> {
    eprintln!(rt; "plan: {path}: {why}")?;
    Err(anyhow!("{end}"))
}

// The bytes of a file; one that can't be read is named.
fn read_file(rt: &HostRuntime, path: &str) -> anyhow::Result<Vec<u8>> {
    fs::read(rt, path).or_else(|why| refuse(rt, path, why, "the file can't be read"))
}

// The settings in a file; those that are refused are named with what is wrong.
fn read_settings(rt: &HostRuntime, path: &str) -> anyhow::Result<Settings> {
    let bytes = read_file(rt, path)?;
    read(bytes.as_slice()).or_else(|fault| {
        let number = u8::from(fault.refusal());
        let why = format_args!("refused by {number}: {fault}");
        refuse(rt, path, why, "the settings are refused")
    })
}

fn check(rt: &HostRuntime, path: &str) -> anyhow::Result<()> {
    let settings = read_settings(rt, path)?;
    let own = settings.own();
    let gates = settings.plan().gates();
    println!(rt; "{path}: right, gate {own} of {gates}")?;
    Ok(())
}

// The plan in a file, line by line; the first line that is wrong is named.
fn read_plan(rt: &HostRuntime, path: &str) -> anyhow::Result<Draft> {
    let content = fs::read_to_string(rt, path).or_else(|why| refuse(rt, path, why, UNREAD))?;
    let mut draft = Draft::new(rt.alloc());
    for (before, line) in content.as_str().lines().enumerate() {
        draft.take_line(rt.alloc(), line).or_else(|fault| {
            let number = before + 1;
            let why = format_args!("line {number}: {fault}");
            refuse(rt, path, why, UNREAD)
        })?;
    }
    Ok(draft)
}

// Drawn bytes for a plan: from a file that is given, or from the system.
fn draw(rt: &HostRuntime, plan: &Plan, path: Option<String>) -> anyhow::Result<Vec<u8>> {
    if let Some(path) = path {
        return read_file(rt, path.as_str());
    }
    let mut drawn = vec![in rt.alloc(); 0u8; DRAWN * usize::from(plan.gates())]?;
    let mut source = File::open(rt, "/dev/urandom")?;
    source.read_exact(drawn.as_mut_slice())?;
    Ok(drawn)
}

// Makes the settings of all gates, and writes them, or prints them where the folder is -.
fn make(rt: &HostRuntime, path: &str, folder: &String, from: Option<String>) -> anyhow::Result<()> {
    let draft = read_plan(rt, path)?;
    let Some(plan) = draft.plan() else {
        return Err(anyhow!("the plan has no gates"));
    };
    let drawn = draw(rt, &plan, from)?;
    let all = make_all(rt.alloc(), plan, drawn.as_slice())?;
    for (settings, name) in all.iter().zip(draft.names.iter()) {
        if folder.as_str() == "-" {
            print_one(rt, name.as_str(), settings)?;
        } else {
            write_one(rt, folder.as_str(), name.as_str(), settings)?;
        }
    }
    Ok(())
}

// Prints the settings of one gate as a line of hex.
fn print_one(rt: &HostRuntime, name: &str, settings: &Settings) -> anyhow::Result<()> {
    let bytes = settings.write(rt.alloc())?;
    let mut line = encode(rt.alloc(), bytes.as_slice())?;
    line.push(b'\n')?;
    let own = settings.own();
    print!(rt; "{own} {name} ")?;
    rt.stdout().write_all(line.as_slice())?;
    Ok(())
}

// Writes the settings of one gate into a file of its name, and says which.
fn write_one(
    rt: &HostRuntime,
    folder: &str,
    name: &str,
    settings: &Settings,
) -> anyhow::Result<()> {
    let bytes = settings.write(rt.alloc())?;
    let own = settings.own();
    let path = format!(in rt.alloc(); "{folder}/{name}")?;
    fs::write(rt, path.as_str(), bytes.as_slice())?;
    println!(rt; "{own} {path}")?;
    Ok(())
}
