// What can happen to a gate. Assumes nothing.

/// One event of a gate's input.
#[derive(Debug, Drop)]
pub enum Event {
    /// One tick of the clock passes.
    Tick,
    /// Drawn (random) bytes are added to the supply.
    Drawn(Vec<u8>),
    /// A packet from inside is put in.
    Packet(Vec<u8>),
    /// A word comes from outside.
    Word(Vec<u8>),
    /// The gate is switched off and on: a restart.
    Fall,
}
