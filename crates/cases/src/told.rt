// Rows in words, for people. Assumes nothing.
use crate::rows::{Event, Row, Said, Side};
use gateway::{Tags, Word};
use std::fmt;

impl fmt::Display for Row {
    fn fmt<W: fmt::Write>(&self, f: &mut fmt::Formatter<W>) -> fmt::Result {
        write!(f, "{} {}: {}, ", self.side, self.event, self.said)?;
        match self.sure {
            Some(Tags { mine, theirs }) => write!(f, "sure of {mine} and {theirs}"),
            None => f.write_str("sure of none"),
        }
    }
}

impl fmt::Display for Side {
    fn fmt<W: fmt::Write>(&self, f: &mut fmt::Formatter<W>) -> fmt::Result {
        write!(f, "gate {}", *self as u8)
    }
}

impl fmt::Display for Event {
    fn fmt<W: fmt::Write>(&self, f: &mut fmt::Formatter<W>) -> fmt::Result {
        match *self {
            Event::Tick => f.write_str("has a tick"),
            Event::Restart => f.write_str("restarts"),
            Event::Greet { gate, tag } => write!(f, "greets gate {gate} with tag {tag}"),
            Event::Put(_) => f.write_str("is given a packet"),
            Event::Take { word, .. } => write!(f, "is brought {}", Told(word)),
        }
    }
}

impl fmt::Display for Said {
    fn fmt<W: fmt::Write>(&self, f: &mut fmt::Formatter<W>) -> fmt::Result {
        match *self {
            Said::Nothing => f.write_str("nothing goes out"),
            Said::Refused(refusal) => write!(f, "refused {} ({refusal})", u8::from(refusal)),
            Said::Sends(word) => write!(f, "{} goes out", Told(word)),
            Said::Sure | Said::Alive => f.write_str("it is taken"),
            Said::Out => f.write_str("it comes out"),
        }
    }
}

/// A word as the rows tell it: its kind, and what matters of it here.
#[derive(Clone, Copy)]
struct Told(Word);

impl fmt::Display for Told {
    fn fmt<W: fmt::Write>(&self, f: &mut fmt::Formatter<W>) -> fmt::Result {
        let (kind, first, of, second) = match self.0 {
            Word::Hello { tag, at, .. } => ("hello", tag, "of tick", at),
            Word::Reply { tag, answers, .. } => ("reply", tag, "to", answers),
            Word::Packet { place, owners } if owners.source == Some(place.by) => (
                "packet",
                place.number,
                "of talk",
                place.tags.mine,
            ),
            Word::Packet { place, .. } => (
                "packet",
                place.number,
                "with a foreign source, of talk",
                place.tags.mine,
            ),
            Word::Empty { place } => ("empty one", place.number, "of talk", place.tags.mine),
        };
        write!(f, "{kind} {first} {of} {second}")
    }
}
