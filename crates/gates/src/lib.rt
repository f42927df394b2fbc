// The abstract protocol has no code but its theorems: each function's contract is one of them, and calling it does nothing.
#![tactic(auto)]

ghost use Rattle.gates.specs.Promise.{Main, AllApart, AllProper, AllTaking};
ghost use Rattle.gates.specs.Stories.{Stories};

pub mod hellos;

// What comes out was put in, by whom it says, for here, once; nothing else goes over the net; and it always can.
pub fn promise_holds()
    ensures { Main }
{}

// No tag is had by two talks, a talk has at most one other side, and no number is sent twice in it.
pub fn talks_are_apart()
    ensures { AllApart }
{}

// Every word is proper: tags, ticks, numbers, who made it and for whom; none stands twice.
pub fn words_are_proper()
    ensures { AllProper }
{}

// One test says of each word whether it is taken; a word that is not taken changes nothing.
pub fn one_test_decides()
    ensures { AllTaking }
{}

// A packet comes out of a second gate; a kept packet, a packet under another ship's name and a forgotten talk end as they should.
pub fn stories_end_well()
    ensures { Stories }
{}
