// The program `cases`: runs the worked cases on a gate's code, a row a line, and says of each whether it went as expected.
#![tactic(auto)]

mod play;
mod rows;
mod table;
mod told;

use anyhow::anyhow;
use rows::{Pair, Row};

/// What is played, and how many lines went otherwise than expected.
#[derive(Drop)]
struct Show {
    pair: Pair,
    differing: u32,
}

fn main(rt: HostRuntime) -> anyhow::Result<()> {
    run(&rt)
}

fn run(rt: &HostRuntime) -> anyhow::Result<()> {
    table::cases_hold();
    let mut show = Show {
        pair: Pair::new(),
        differing: 0,
    };
    for (name, rows) in [
        ("A", table::case_a().as_slice()),
        ("B", table::case_b().as_slice()),
        ("C", table::case_c().as_slice()),
        ("D", table::case_d().as_slice()),
        ("E", table::case_e().as_slice()),
        ("F", table::case_f().as_slice()),
        ("G", table::case_g().as_slice()),
    ] {
        show.case(rt, name, rows)?;
    }
    show.ring(rt)?;
    if show.differing > 0 {
        return Err(anyhow!("some rows differ"));
    }
    Ok(())
}

impl Show {
    /// Plays the rows of a case, and prints each.
    fn case(&mut self, rt: &HostRuntime, name: &str, rows: &[Row]) -> anyhow::Result<()> {
        for row in rows {
            let happened = self.pair.play(*row);
            self.print(rt, name, *row, happened)?;
        }
        Ok(())
    }

    /// Prints a row as it happened, after its case's name, and whether that is as expected; if it isn't, what was.
    fn print(
        &mut self,
        rt: &HostRuntime,
        name: &str,
        row: Row,
        happened: Row,
    ) -> anyhow::Result<()> {
        let same = happened == row;
        let verdict = self.verdict(same);
        println!(rt; "{name}  {happened}  {verdict}")?;
        if !same {
            println!(rt; "   expected: {row}")?;
        }
        Ok(())
    }

    /// Whether a line went as expected, in words; it is counted where it didn't.
    fn verdict(&mut self, same: bool) -> &'static str {
        if same {
            return "as expected";
        }
        self.differing = self.differing.saturating_add(1);
        "DIFFERS"
    }

    /// That the ring is clear below 5,000: every number of the window may come, each on a copy of the gates.
    fn ring(&mut self, rt: &HostRuntime) -> anyhow::Result<()> {
        let clear = self.pair.count_clear();
        let verdict = self.verdict(clear == 2047);
        println!(rt;
            "G  gate 1, on copies, is brought each packet from 2953 to 4999: {clear} come out  {verdict}"
        )?;
        Ok(())
    }
}
