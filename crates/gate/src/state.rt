// One gate as far as it goes: its tick, its drawn bytes, and what it refused. Words of a known kind
// and packets are seen and not yet taken. Assumes nothing.
ghost use Rattle.std.specs.Prelude.{◌≡◌, false, [], is_ok, IfOk, if◌then◌else◌};
ghost use Rattle.protocol.specs.declared.refusals.Refusal.{Refusal as Cause};
ghost use Rattle.protocol.specs.Counting.{count_of};
ghost use Rattle.protocol.specs.Kinds.{kind_of};
ghost use Rattle.lines.specs.Reading.{said, trim_end, line_says};
ghost use Rattle.gate.specs.Lines.{TakesLine};
ghost use Rattle.gate.specs.Events.{answer_to, answer_to_word, tick_after, drawn_after, refused_after, refused_after_word, Draws};

use lines::{Event, LineFault, read_line};
use protocol::{Counts, Refusal, kind_of};
use std::alloc::{AllocError, Global};
use std::fmt;

/// What this form of the gate can't do yet.
#[derive(Clone, Copy, Debug, PartialEq, Eq, PartialOrd, Ord)]
pub enum Missing {
    /// Opening a word of a known kind.
    Words,
    /// Sending a packet from inside.
    Packets,
}

impl fmt::Display for Missing {
    fn fmt<W: fmt::Write>(&self, f: &mut fmt::Formatter<W>) -> fmt::Result {
        f.write_str(match self {
            Missing::Words => "words of a known kind are not opened yet; they are passed over",
            Missing::Packets => "packets from inside are not sent yet; they are passed over",
        })
    }
}

/// What became of an event.
#[derive(Clone, Copy, Debug, PartialEq, Eq)]
pub enum Answer {
    /// It was done.
    Done,
    /// It was refused, and counted.
    Refused(Refusal),
    /// Nothing was done, since this form of the gate can't do it.
    NotYet(Missing),
}

/// One gate.
#[derive(Drop)]
pub struct Gate {
    tick: u64,
    drawn: Vec<u8>,
    refused: Counts,
}

impl Gate {
    /// A gate at its start: tick 1, no drawn bytes, nothing refused.
    pub fn new(heap: Global) -> Self
        ensures tick { result.tick ≡ 1 }
        ensures drawn { result.drawn.items ≡ [] }
        ensures refused { (x : Cause) → count_of result.refused x ≡ 0 }
    {
        Gate {
            tick: 1,
            drawn: Vec::new(heap),
            refused: Counts::new(),
        }
    }

    /// Takes one event, and answers what became of it. Refuses drawn bytes for which there is no
    /// memory, and then changes nothing.
    pub fn take(&mut self, event: Event) -> Result<Answer, AllocError>
        ensures answer { IfOk result (λ a. a ≡ answer_to (said event)) }
        ensures memory { is_ok result ≡ false → Draws (said event) }
        ensures tick { self.new.tick ≡ tick_after (said event) self.old.tick }
        ensures drawn { self.new.drawn.items ≡ (if is_ok result then drawn_after (said event) self.old.drawn.items else self.old.drawn.items) }
        ensures refused { self.new.refused ≡ refused_after (said event) self.old.refused }
    {
        match event {
            Event::Tick => self.tick = self.tick.saturating_add(1),
            Event::Drawn(bytes) => self.drawn.extend_from_slice(bytes.as_slice())?,
            Event::Fall => self.drawn.clear(),
            Event::Packet(_bytes) => return Ok(Answer::NotYet(Missing::Packets)),
            Event::Word(bytes) => return Ok(self.word(bytes.as_slice())),
        }
        Ok(Answer::Done)
    }

    /// Takes the event that a line of input says, with or without the end of the line, and answers
    /// what became of it. Refuses a line that says none, or for which there is no memory, and
    /// then changes nothing.
    pub fn take_line(&mut self, heap: Global, line: &[u8]) -> Result<Answer, LineFault>
        ensures { TakesLine (line_says (trim_end line.now)) self.old self.new result }
    {
        let event = read_line(heap, line)?;
        Ok(self.take(event)?)
    }

    // Takes a word from outside: one of unknown kind or length is refused and counted.
    fn word(&mut self, bytes: &[u8]) -> Answer
        ensures answer { result ≡ answer_to_word (kind_of bytes.now) }
        ensures tick { self.new.tick ≡ self.old.tick }
        ensures drawn { self.new.drawn ≡ self.old.drawn }
        ensures refused { self.new.refused ≡ refused_after_word (kind_of bytes.now) self.old.refused }
    {
        let Err(refusal) = kind_of(bytes) else {
            return Answer::NotYet(Missing::Words);
        };
        self.refused.add(refusal);
        Answer::Refused(refusal)
    }

    /// How often this refusal happened. It changes nothing.
    pub fn refused(&self, refusal: Refusal) -> u64
        ensures { result ≡ count_of self.now.refused refusal }
    {
        self.refused.of(refusal)
    }
}
