// The program `samples`: says of packets and settings, given as hex, what is read of them. Its
// input is a table of whole, damaged and cut ones; what it must write was made by another program.
//
//     packet LABEL HEX           LABEL from A.B.C.D to A.B.C.D, or LABEL refused N
//     settings LABEL HEX         LABEL right, or LABEL refused N: what is wrong
//     owner LABEL HEX ADDRESS    LABEL gate N, or LABEL nobody; the address is 8 hex digits
#![tactic(auto)]

use anyhow::{Context, bail};
use lines::decode_word;
use std::io::{BufRead, BufReader};
use std::net::Ipv4Addr;

fn main(rt: HostRuntime) -> anyhow::Result<()> {
    run(&rt)
}

// The first words of a line are read as in `texts`: ten lines, and one function for both would take what follows as a closure.
fn run(rt: &HostRuntime) -> anyhow::Result<()> {
    for line in BufReader::new(rt.alloc(), rt.stdin())?.lines(rt.alloc()) {
        let line = line?;
        let mut words = line.as_str().split_whitespace();
        let Some(kind) = words.next() else {
            continue;
        };
        let label = words.next().context("a line has no label")?;
        let bytes = decode_word(rt.alloc(), words.next())?;
        match kind {
            "packet" => packet_line(rt, label, bytes.as_slice())?,
            "settings" => settings_line(rt, label, bytes.as_slice())?,
            "owner" => {
                let address = decode_word(rt.alloc(), words.next())?;
                owner_line(rt, label, bytes.as_slice(), address.as_slice())?;
            }
            _ => bail!("a line is of no kind"),
        }
    }
    Ok(())
}

fn packet_line(rt: &HostRuntime, label: &str, bytes: &[u8]) -> anyhow::Result<()> {
    match packet::read(bytes) {
        Ok(found) => {
            let source = Ipv4Addr::from(found.source);
            let destination = Ipv4Addr::from(found.destination);
            println!(rt; "{label} from {source} to {destination}")?;
        }
        Err(refusal) => {
            let number = u8::from(refusal);
            println!(rt; "{label} refused {number}")?;
        }
    }
    Ok(())
}

fn settings_line(rt: &HostRuntime, label: &str, bytes: &[u8]) -> anyhow::Result<()> {
    match settings::read(bytes) {
        Ok(_) => println!(rt; "{label} right")?,
        Err(fault) => {
            let number = u8::from(fault.refusal());
            println!(rt; "{label} refused {number}: {fault}")?;
        }
    }
    Ok(())
}

fn owner_line(rt: &HostRuntime, label: &str, bytes: &[u8], address: &[u8]) -> anyhow::Result<()> {
    let address: &[u8; 4] = address.as_array().context("an address has 8 hex digits")?;
    let Ok(found) = settings::read(bytes) else {
        bail!("an owner is asked of settings that are refused");
    };
    match found.plan().owner(u32::from_be_bytes(*address)) {
        Some(gate) => println!(rt; "{label} gate {gate}")?,
        None => println!(rt; "{label} nobody")?,
    }
    Ok(())
}
