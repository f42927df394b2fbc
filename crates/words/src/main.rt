// The program `words`: opens words that another implementation made (tests/words.py), seals them
// again, and tries each flipped bit and each cut. A line of input has: a table's name, a label, a
// pair's key in hex, the gate that opens and the other one, their tags in a talk, and a word in hex;
// words of the table `whole` are also sealed again, flipped and cut.
#![tactic(auto)]

mod trials;

use anyhow::{Context, anyhow};
use lines::decode_word;
use std::io::{BufRead, BufReader};
use std::str::FromStr;
use trials::Trial;
use wire::PairKeys;

fn main(rt: HostRuntime) -> anyhow::Result<()> {
    run(&rt)
}

fn run(rt: &HostRuntime) -> anyhow::Result<()> {
    for line in BufReader::new(rt.alloc(), rt.stdin())?.lines(rt.alloc()) {
        let line = line?;
        let mut parts = line.as_str().split_whitespace();
        let Some(table) = parts.next() else {
            continue;
        };
        let label = parts.next().context("a line has no label")?;
        let key = key_of(bytes_of(rt, parts.next())?.as_slice())?;
        let own = number_of(parts.next(), "a gate")?;
        let peer = number_of(parts.next(), "a gate")?;
        let mine = number_of(parts.next(), "a tag")?;
        let theirs = number_of(parts.next(), "a tag")?;
        let mut word = bytes_of(rt, parts.next())?;
        let here = PairKeys::new(&key, own, peer);
        let there = PairKeys::new(&key, peer, own);
        let trial = Trial {
            rt,
            label,
            talk: here.talk(mine, theirs),
            here,
            there,
            mine,
            theirs,
        };
        trial.opens(word.as_slice())?;
        if table == "whole" {
            trial.seals_again(word.as_slice())?;
            trial.flips(word.as_mut_slice())?;
            trial.cuts(word.as_mut_slice())?;
        }
    }
    Ok(())
}

// The bytes of a part of hex; none where there is no part.
fn bytes_of(rt: &HostRuntime, part: Option<&str>) -> anyhow::Result<Vec<u8>> {
    decode_word(rt.alloc(), part).map_err(|_| anyhow!("a part is no hex"))
}

fn key_of(bytes: &[u8]) -> anyhow::Result<[u8; 32]> {
    bytes.try_into().ok().context("a key hasn't 32 bytes")
}

// The number that a part is, which `what` names where there is none.
fn number_of<T: FromStr>(part: Option<&str>, what: &str) -> anyhow::Result<T>
where
    T::Err: Drop,
{
    let part = part.ok_or_else(|| anyhow!("{what} is missing"))?;
    part.parse().map_err(|_| anyhow!("{what} is no number"))
}
