// Plays a story with three gates and a net that keeps every word, and says what came out and what did not. The gates are the proved ones: what they let out was
// put in, by whom it says, for here, once.
#![tactic(auto)]

use gateway::{Terms, Word};
use refinement::EventKind::{self, Bring, Greet, Put, Restart, Tick};
use refinement::{Event, Parcel, Sea};
use std::fmt;

// A plain table, read by `get`: a struct round it alone is no plainer.
/// Gate k owns the addresses from 10 * k to 10 * k + 9; the rest is nobody's.
const OWNERS: [u8; 30] = [
    0, 0, 0, 0, 0, 0, 0, 0, 0, 0, 1, 1, 1, 1, 1, 1, 1, 1, 1, 1, 2, 2, 2, 2, 2, 2, 2, 2, 2, 2,
];

/// How long a talk is good.
const TERMS: Terms = Terms {
    life: 600,
    most: 1000,
};

/// "Lower the ramp", from an address of gate 0's to one of gate 1's.
const RAMP: Parcel = Parcel {
    from: 3,
    to: 12,
    what: 1,
};

/// The same, put in at gate 0 under an address of gate 2's.
const FALSE_RAMP: Parcel = Parcel {
    from: 23,
    to: 12,
    what: 1,
};

/// One event of the story, in words.
#[derive(Clone, Copy)]
struct Line {
    says: &'static str,
    event: Event,
}

impl Line {
    /// What it says, and what happens then at which gate.
    fn new(says: &'static str, gate: u8, kind: EventKind) -> Line {
        Line {
            says,
            event: Event { gate, kind },
        }
    }
}

/// The word at a place of the net is brought, with a tag drawn for a reply, if one was: a line in the table, where a struct takes four.
fn brought(place: usize, tag: Option<u64>) -> EventKind {
    Bring { place, tag }
}

/// The whole story. A function, since a constant's value calls none.
fn story() -> [Line; 22] {
    [
        Line::new("a tick passes at gate 0", 0, Tick),
        Line::new("gate 0 greets gate 1", 0, Greet { to: 1, tag: 5 }),
        Line::new("the hello is brought to gate 1", 1, brought(0, Some(9))),
        Line::new("the reply is brought to gate 0", 0, brought(1, None)),
        Line::new("a packet is put in at gate 0", 0, Put(RAMP)),
        Line::new("it is brought to gate 1", 1, brought(2, None)),
        Line::new("it is brought to gate 1 again", 1, brought(2, None)),
        Line::new("it is brought to gate 2", 2, brought(2, None)),
        Line::new("gate 1 is switched off and on", 1, Restart),
        Line::new("the kept packet is brought to gate 1", 1, brought(2, None)),
        Line::new(
            "the kept hello is brought to gate 1",
            1,
            brought(0, Some(10)),
        ),
        Line::new(
            "a packet is put in at gate 0, which is still sure",
            0,
            Put(RAMP),
        ),
        Line::new(
            "it is brought to gate 1, which has forgotten",
            1,
            brought(3, None),
        ),
        Line::new("a tick passes at gate 0", 0, Tick),
        Line::new("gate 0 greets gate 1", 0, Greet { to: 1, tag: 6 }),
        Line::new("the hello is brought to gate 1", 1, brought(4, Some(11))),
        Line::new("the reply is brought to gate 0", 0, brought(5, None)),
        Line::new(
            "the kept packet is brought to gate 1 once more",
            1,
            brought(2, None),
        ),
        Line::new("a packet is put in at gate 0", 0, Put(RAMP)),
        Line::new("it is brought to gate 1", 1, brought(6, None)),
        Line::new(
            "a packet under gate 2's name is put in at gate 0",
            0,
            Put(FALSE_RAMP),
        ),
        Line::new(
            "a word that is not there is brought to gate 1",
            1,
            brought(7, None),
        ),
    ]
}

/// A word of the net, named by its kind.
#[derive(Clone, Copy)]
struct Named(Word);

impl fmt::Display for Named {
    fn fmt<W: fmt::Write>(&self, f: &mut fmt::Formatter<W>) -> fmt::Result {
        f.write_str(match self.0 {
            Word::Hello { .. } => "a hello",
            Word::Reply { .. } => "a reply",
            Word::Packet { .. } => "a packet",
            Word::Empty { .. } => "a keepalive",
        })
    }
}

/// Plays one line, and says what went over the net and what came out.
fn play(rt: &HostRuntime, sea: &mut Sea, line: Line) -> anyhow::Result<()> {
    let words = sea.words().len();
    let came = sea.came_out().len();
    sea.step(&OWNERS, line.event)?;
    let says = line.says;
    rt.print(says)?;
    if let Some(letter) = sea.words().get(words) {
        let sent = Named(letter.word);
        print!(rt; ": {sent} goes out as word {words}")?;
    }
    if let Some(letter) = sea.came_out().get(came) {
        let Parcel { from, to, .. } = letter.parcel.unwrap_or_default();
        print!(rt; ": it comes out, from {from} to {to}")?;
    }
    println!(rt; "")?;
    Ok(())
}

fn run(rt: &HostRuntime) -> anyhow::Result<()> {
    let mut sea = Sea::new(rt.alloc(), 3, TERMS)?;
    for line in story() {
        play(rt, &mut sea, line)?;
    }
    let put = sea.put_in().len();
    let came = sea.came_out().len();
    println!(rt; "put in and sent: {put}, came out: {came}")?;
    Ok(())
}

fn main(rt: HostRuntime) -> anyhow::Result<()> {
    run(&rt)
}
