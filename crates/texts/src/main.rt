// The program `texts`: says of lines of input and texts of plans, given as hex, what is read of them.
// Its input is a table of whole, damaged and cut ones; what it must write was made by another program.
//
//     line LABEL HEX             LABEL tick, fall, or the event and its bytes; or LABEL what is wrong
//     plan LABEL HEX             LABEL right, N gates, or LABEL line N: what is wrong
#![tactic(auto)]

use anyhow::{Context, bail};
use lines::{Event, decode_word, encode, read_line};
use std::io::{BufRead, BufReader, Write};

fn main(rt: HostRuntime) -> anyhow::Result<()> {
    run(&rt)
}

// The first words of a line are read as in `samples`: ten lines, and one function for both would take what follows as a closure.
fn run(rt: &HostRuntime) -> anyhow::Result<()> {
    for line in BufReader::new(rt.alloc(), rt.stdin())?.lines(rt.alloc()) {
        let line = line?;
        let mut words = line.as_str().split_whitespace();
        let Some(kind) = words.next() else {
            continue;
        };
        let label = words.next().context("a line has no label")?;
        let bytes = decode_word(rt.alloc(), words.next())?;
        match kind {
            "line" => event_line(rt, label, bytes.as_slice())?,
            "plan" => plan_line(rt, label, bytes.as_slice())?,
            _ => bail!("a line is of no kind"),
        }
    }
    Ok(())
}

// Prints an event that has bytes.
fn print_event(rt: &HostRuntime, label: &str, name: &str, bytes: &[u8]) -> anyhow::Result<()> {
    print!(rt; "{label} {name} ")?;
    let mut text = encode(rt.alloc(), bytes)?;
    text.push(b'\n')?;
    rt.stdout().write_all(text.as_slice())?;
    Ok(())
}

fn event_line(rt: &HostRuntime, label: &str, bytes: &[u8]) -> anyhow::Result<()> {
    match read_line(rt.alloc(), bytes) {
        Ok(Event::Tick) => println!(rt; "{label} tick")?,
        Ok(Event::Fall) => println!(rt; "{label} fall")?,
        Ok(Event::Drawn(drawn)) => print_event(rt, label, "drawn", drawn.as_slice())?,
        Ok(Event::Packet(packet)) => print_event(rt, label, "packet", packet.as_slice())?,
        Ok(Event::Word(word)) => print_event(rt, label, "word", word.as_slice())?,
        Err(fault) => println!(rt; "{label} {fault}")?,
    }
    Ok(())
}

fn plan_line(rt: &HostRuntime, label: &str, text: &[u8]) -> anyhow::Result<()> {
    match draft::read(text) {
        Ok(read) => {
            let gates = read.plan().map_or(0, |plan| plan.gates());
            println!(rt; "{label} right, {gates} gates")?;
        }
        Err(wrong) => println!(rt; "{label} {wrong}")?,
    }
    Ok(())
}
