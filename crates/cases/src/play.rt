// Playing rows on the code of two gates, through its public calls alone. Assumes nothing.
ghost use Rattle.std.specs.Prelude.{◌≡◌};
ghost use Rattle.std.specs.Result.{MatchResult};
ghost use Rattle.cases.specs.declared.rows.Said.TheVariants.{Refused};
ghost use Rattle.cases.specs.Play.{says_word, says_taken, says, leaves, own_of, other_of, tags_of, sure_of, after, happened};
ghost use Rattle.cases.specs.Cases.{at_seven, start};

use crate::rows::{Event, Pair, Row, Said, Side};
use crate::table::{NEXT, brought, packet};
use gateway::{Gateway, Owners, Tags, Taken, Terms, Word};
use protocol::Refusal;

/// A word goes out, if there is one.
impl From<Option<Word>> for Said {
    ghost from_gives = { λ word said. said ≡ says_word word };

    fn from(word: Option<Word>) -> Said {
        match word {
            Some(word) => Said::Sends(word),
            None => Said::Nothing,
        }
    }
}

/// What became of a word that was taken.
impl From<Taken> for Said {
    ghost from_gives = { λ taken said. said ≡ says_taken taken };

    fn from(taken: Taken) -> Said {
        match taken {
            Taken::Answer(word) => Said::Sends(word),
            Taken::Sure => Said::Sure,
            Taken::Out => Said::Out,
            Taken::Alive => Said::Alive,
        }
    }
}

/// What a call answers: the answer's own words, or the refusal.
impl<T: Into<Said>> From<Result<T, Refusal>> for Said {
    ghost from_gives = { λ answer said. MatchResult answer (λ x. T.Into.converts x said) (λ refusal. said ≡ Refused refusal) };

    fn from(answer: Result<T, Refusal>) -> Said {
        match answer {
            Ok(answer) => answer.into(),
            Err(refusal) => Said::Refused(refusal),
        }
    }
}

impl Said {
    /// The tags of the talk in which a packet goes out.
    fn tags(self) -> Option<Tags>
        ensures { result ≡ tags_of self }
    {
        match self {
            Said::Sends(Word::Packet { place, .. }) => Some(place.tags),
            _ => None,
        }
    }
}

impl Side {
    /// The number of the gate on this side.
    fn own(self) -> u8
        ensures { result ≡ own_of self }
    {
        self as u8
    }

    /// The number of the other one.
    fn other(self) -> u8
        ensures { result ≡ other_of self }
    {
        1 - self.own()
    }
}

/// What a gate says to an event.
fn happen(gate: &mut Gateway, event: Event) -> Said
    ensures answer { result ≡ says event gate.old }
    ensures after { gate.new ≡ leaves event gate.old }
{
    match event {
        Event::Tick => {
            gate.tick();
            Said::Nothing
        }
        Event::Restart => {
            gate.restart();
            Said::Nothing
        }
        Event::Greet { gate: other, tag } => gate.greet(other, tag).into(),
        Event::Put(owners) => gate.put(owners).into(),
        Event::Take { word, drawn } => gate.take(word, drawn).into(),
    }
}

/// The talk by which the gate on a side would send to the other one, looked for on a copy of it.
fn sure_of(mut gate: Gateway, side: Side) -> Option<Tags>
    ensures { result ≡ sure_of (own_of side) (other_of side) gate }
{
    let owners = Owners {
        source: Some(side.own()),
        goal: Some(side.other()),
    };
    Said::from(gate.put(owners)).tags()
}

/// A gate of three at tick 7; a talk is good for 600 ticks and 1,000 numbers.
fn at_seven(own: u8) -> Gateway
    ensures { result ≡ at_seven own }
{
    let terms = Terms {
        life: 600,
        most: 1000,
    };
    let mut gate = Gateway::new(own, 3, terms);
    for _ in 0..6u8 {
        gate.tick();
    }
    gate
}

impl Pair {
    /// The two gates before the first row.
    pub fn new() -> Pair
        ensures { result ≡ start }
    {
        Pair {
            gates: [at_seven(0), at_seven(1)],
        }
    }

    /// Plays a row, and answers it as it happened.
    pub fn play(&mut self, row: Row) -> Row
        ensures answer { result ≡ happened row self.old }
        ensures after { self.new ≡ after row self.old }
    {
        let gate = &mut self.gates[usize::from(row.side.own())];
        let said = happen(gate, row.event);
        let sure = sure_of(*gate, row.side);
        Row { said, sure, ..row }
    }

    /// How many of the numbers 2,953 to 4,999 may come in the talk 6 and 10 at gate 1. It changes nothing.
    pub fn count_clear(&self) -> usize {
        (2953..5000)
            .filter(|number| take_one(self.gates[1], *number) == Said::Out)
            .count()
    }
}

/// What a copy of gate 1 says to a packet of the talk 6 and 10.
fn take_one(mut gate: Gateway, number: u64) -> Said {
    happen(&mut gate, brought(packet(NEXT, number)))
}
