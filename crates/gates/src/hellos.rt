// What is proved of the timer that a gate keeps for each peer: each contract is a theorem, and its function does nothing.
ghost use Rattle.gates.specs.Timer.{Timely, Sharp, Prompt, Rising, Kept, Shown};

// 15 ticks without a word from a peer to which something goes have a hello.
pub fn hello_follows_silence()
    ensures { Timely }
{}

// 14 ticks can be without one.
pub fn fifteen_is_least()
    ensures { Sharp }
{}

// 5 ticks in which a packet waits have a hello.
pub fn hello_follows_waiting()
    ensures { Prompt }
{}

// Each hello to a peer has a tick above those before it.
pub fn hellos_rise()
    ensures { Rising }
{}

// The rules can be kept, in one way.
pub fn rules_can_be_kept()
    ensures { Kept }
{}

// Each rule causes a hello in a history that is computed.
pub fn rules_are_shown()
    ensures { Shown }
{}
