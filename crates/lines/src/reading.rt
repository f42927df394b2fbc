// What an input line says: an event, or what is wrong with it. Assumes nothing.
ghost use Rattle.std.specs.Prelude.{◌≡◌};
ghost use Rattle.lines.specs.Reading.{trim_end, line_says, says_named, Reads};
ghost use Rattle.lines.specs.Writing.{EveryEventHasItsLine};

use crate::events::Event;
use crate::faults::LineFault;
use crate::hex::decode;
use crate::names::{Name, find_name};
use std::alloc::Global;

// The event of this name, with what follows on the line from `at` on.
fn event_named(heap: Global, name: Name, line: &[u8], at: usize) -> Result<Event, LineFault>
    ensures { Reads (says_named line.now name at) result }
{
    let alone = at >= line.len();
    match name {
        Name::Tick if alone => Ok(Event::Tick),
        Name::Fall if alone => Ok(Event::Fall),
        Name::Tick | Name::Fall => Err(LineFault::NotAlone),
        Name::Drawn if alone => Err(LineFault::NothingDrawn),
        Name::Drawn => Ok(Event::Drawn(decode(heap, line, at)?)),
        Name::Packet => Ok(Event::Packet(decode(heap, line, at)?)),
        Name::Word => Ok(Event::Word(decode(heap, line, at)?)),
    }
}

/// The event that a line of input says, with or without the end of the line. Refuses any bytes that
/// are no event's line, with what is wrong with them, and changes nothing.
pub fn read_line(heap: Global, line: &[u8]) -> Result<Event, LineFault>
    ensures { Reads (line_says (trim_end line.now)) result }
{
    let line = line.trim_ascii_end();
    if line.is_empty() {
        return Err(LineFault::EmptyLine);
    }
    let Some((name, at)) = find_name(line) else {
        return Err(LineFault::UnknownEvent);
    };
    event_named(heap, name, line, at)
}

/// States that every event has a line that says it: its name, and behind one space its bytes as
/// hex digits. It does nothing.
pub fn every_event_has_its_line()
    ensures { EveryEventHasItsLine }
{}
