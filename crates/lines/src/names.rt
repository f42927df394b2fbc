// The names with which input lines begin. Assumes nothing.
ghost use Rattle.std.specs.Prelude.{◌≡◌};
ghost use Rattle.lines.specs.Names.{name_text, name_start, find_name};

/// The name of an event, the first thing on its line.
#[derive(Clone, Copy, Debug, PartialEq, Eq)]
pub enum Name {
    Tick,
    Drawn,
    Packet,
    Word,
    Fall,
}

impl Name {
    // All names, in the order in which a line is tried.
    const ALL: [Name; 5] = [
        Name::Tick,
        Name::Drawn,
        Name::Packet,
        Name::Word,
        Name::Fall,
    ];

    // The name as it stands on a line.
    fn text(self) -> &'static [u8]
        ensures { result.now ≡ name_text self }
    {
        match self {
            Name::Tick => b"tick",
            Name::Drawn => b"drawn",
            Name::Packet => b"packet",
            Name::Word => b"word",
            Name::Fall => b"fall",
        }
    }
}

// Where what follows this name on the line begins: behind one space, or at the end of a line that
// is the name alone. None where the line doesn't begin with the name.
fn name_start(line: &[u8], name: &[u8]) -> Option<usize>
    ensures { result ≡ name_start line.now name.now }
{
    match line.strip_prefix(name)? {
        [] => Some(line.len()),
        [b' ', ..] => Some(name.len() + 1),
        _ => None,
    }
}

/// The name with which the line begins, and where what follows it begins, or none.
pub fn find_name(line: &[u8]) -> Option<(Name, usize)>
    ensures { result ≡ find_name line.now }
{
    // A `for`: with `find_map` over the names the proof stays open.
    for name in Name::ALL {
        if let Some(at) = name_start(line, name.text()) {
            return Some((name, at));
        }
    }
    None
}
