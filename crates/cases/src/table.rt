// The worked cases A to G, as one table: its rows are proved to be those of the specification, of which the theorem speaks. Each case has a function, as its array
// has a length of its own. Assumes nothing.
ghost use Rattle.std.specs.Prelude.{◌≡◌, Some};
ghost use Rattle.cases.specs.Cases.{Cases, rows_of, case_a, case_b, case_c, case_d, case_e, case_f, case_g, brought, packet, sure_tags, row_of};

use crate::rows::Said::{self, Nothing, Out, Refused, Sends, Sure};
use crate::rows::Side::{self, One, Zero};
use crate::rows::{Event, Row};
use gateway::{InTalk, Owners, Tags, Word};
use protocol::Refusal::{BelowWindow, ForeignAddress, NoTalk, OldHello, RepeatedNumber};

/// A theorem: every row of the table happens as it says, and what is in memory then is as it says.
pub fn cases_hold()
    ensures { Cases }
{}

/// A hello of gate 0's.
fn hello(tag: u64, at: u64) -> Word
    ensures { result ≡ Word.Hello 0 1 tag at }
{
    Word::Hello {
        by: 0,
        to: 1,
        tag,
        at,
    }
}

/// A reply of gate 1's.
fn reply(tag: u64, answers: u64) -> Word
    ensures { result ≡ Word.Reply 1 0 tag answers }
{
    Word::Reply {
        by: 1,
        to: 0,
        tag,
        answers,
    }
}

/// The talk that the first hello makes, as gate 0 has it.
const FIRST: Tags = Tags { mine: 5, theirs: 9 };

/// The talk that the hello after the restart makes, as gate 0 has it.
pub const NEXT: Tags = Tags {
    mine: 6,
    theirs: 10,
};

/// What goes from gate 0 to gate 1.
const OWN: Owners = Owners {
    source: Some(0),
    goal: Some(1),
};

/// A packet of gate 0's in a talk.
pub fn packet(tags: Tags, number: u64) -> Word
    ensures { result ≡ packet tags number }
{
    let place = InTalk {
        by: 0,
        to: 1,
        tags,
        number,
    };
    Word::Packet { place, owners: OWN }
}

/// The first packet of gate 0's in the next talk, from an address of gate 2's: the only one with other owners.
const FOREIGN: Word = Word::Packet {
    place: InTalk {
        by: 0,
        to: 1,
        tags: NEXT,
        number: 1,
    },
    owners: Owners {
        source: Some(2),
        goal: Some(1),
    },
};

/// A hello is to be made to gate 1.
fn greeting(tag: u64) -> Event
    ensures { result ≡ Event.Greet 1 tag }
{
    Event::Greet { gate: 1, tag }
}

/// A packet is put in at gate 0, for gate 1.
const GIVEN: Event = Event::Put(OWN);

/// A hello is brought, with a tag drawn for its reply.
fn brought_with(word: Word, drawn: u64) -> Event
    ensures { result ≡ Event.Take word (Some drawn) }
{
    let drawn = Some(drawn);
    Event::Take { word, drawn }
}

/// A word is brought for which no tag has to be drawn.
pub fn brought(word: Word) -> Event
    ensures { result ≡ brought word }
{
    Event::Take { word, drawn: None }
}

/// The tags of a talk that a gate is sure of.
fn tags(mine: u64, theirs: u64) -> Option<Tags>
    ensures { result ≡ sure_tags mine theirs }
{
    Some(Tags { mine, theirs })
}

/// A row.
fn row(side: Side, event: Event, said: Said, sure: Option<Tags>) -> Row
    ensures { result ≡ row_of side event said sure }
{
    Row {
        side,
        event,
        said,
        sure,
    }
}

/// Case A: both gates have the talk 5 and 9, and gate 0 is sure of it.
pub fn case_a() -> [Row; 3]
    ensures { result ≡ rows_of case_a }
{
    [
        row(Zero, greeting(5), Sends(hello(5, 7)), None),
        row(One, brought_with(hello(5, 7), 9), Sends(reply(9, 5)), None),
        row(Zero, brought(reply(9, 5)), Sure, tags(5, 9)),
    ]
}

/// Case B: the hello again, and the one that was held back.
pub fn case_b() -> [Row; 2]
    ensures { result ≡ rows_of case_b }
{
    [
        row(One, brought_with(hello(5, 7), 11), Refused(OldHello), None),
        row(One, brought_with(hello(4, 6), 11), Refused(OldHello), None),
    ]
}

/// Case C: number 1 comes out once, and gate 1 is sure.
pub fn case_c() -> [Row; 3]
    ensures { result ≡ rows_of case_c }
{
    [
        row(Zero, GIVEN, Sends(packet(FIRST, 1)), tags(5, 9)),
        row(One, brought(packet(FIRST, 1)), Out, tags(9, 5)),
        row(
            One,
            brought(packet(FIRST, 1)),
            Refused(RepeatedNumber),
            tags(9, 5),
        ),
    ]
}

/// Case D: the highest is 3,000.
pub fn case_d() -> [Row; 3]
    ensures { result ≡ rows_of case_d }
{
    [
        row(One, brought(packet(FIRST, 3000)), Out, tags(9, 5)),
        row(
            One,
            brought(packet(FIRST, 952)),
            Refused(BelowWindow),
            tags(9, 5),
        ),
        row(One, brought(packet(FIRST, 953)), Out, tags(9, 5)),
    ]
}

/// Case E: gate 1 restarts and has no talk, but has kept the tick of the last hello; the next hello makes a new talk.
pub fn case_e() -> [Row; 10]
    ensures { result ≡ rows_of case_e }
{
    [
        row(One, Event::Restart, Nothing, None),
        row(One, brought(packet(FIRST, 1)), Refused(NoTalk), None),
        row(Zero, GIVEN, Sends(packet(FIRST, 2)), tags(5, 9)),
        row(One, brought(packet(FIRST, 2)), Refused(NoTalk), None),
        row(One, brought_with(hello(5, 7), 11), Refused(OldHello), None),
        row(Zero, Event::Tick, Nothing, tags(5, 9)),
        row(Zero, greeting(6), Sends(hello(6, 8)), tags(5, 9)),
        row(
            One,
            brought_with(hello(6, 8), 10),
            Sends(reply(10, 6)),
            None,
        ),
        row(Zero, brought(reply(10, 6)), Sure, tags(6, 10)),
        row(One, brought(packet(FIRST, 2)), Refused(NoTalk), None),
    ]
}

/// Case F: what is refused for its address moves nothing: its number comes.
pub fn case_f() -> [Row; 3]
    ensures { result ≡ rows_of case_f }
{
    [
        row(One, brought(FOREIGN), Refused(ForeignAddress), None),
        row(Zero, GIVEN, Sends(packet(NEXT, 1)), tags(6, 10)),
        row(One, brought(packet(NEXT, 1)), Out, tags(10, 6)),
    ]
}

/// Case G: the highest is 1, then 5,000.
pub fn case_g() -> [Row; 2]
    ensures { result ≡ rows_of case_g }
{
    [
        row(One, brought(packet(NEXT, 5000)), Out, tags(10, 6)),
        row(
            One,
            brought(packet(NEXT, 2)),
            Refused(BelowWindow),
            tags(10, 6),
        ),
    ]
}
