// The public calls of a gate, each with the events of the abstract protocol that it is. They are functions, since methods of these names are gateway's. Assumes nothing.
ghost use Rattle.std.specs.Prelude.{◌≡◌, ℕ, ◌^◌, ◌<◌, unwrap_or};
ghost use Rattle.gates.specs.World.{empty_gate};
ghost use Rattle.gateway.specs.Steps.{fresh, took, took_after, greet_after, put_after, ticked, restarted};
ghost use Rattle.gateway.specs.Steps.{put as put_answer, greet as greet_answer};
ghost use Rattle.refinement.specs.Relation.{Stands};
ghost use Rattle.refinement.specs.Term.{AsAsked};
ghost use Rattle.refinement.specs.Steps.{TakeFollows, PutFollows, GreetFollows, TickFollows, RestartFollows};

use gateway::{Gateway, Owners, Taken, Terms, Word};
use protocol::Refusal;

/// A gate that was just made: its number, how many gates there are, and for how long a talk is good.
pub fn start(own: u8, gates: u8, terms: Terms) -> Gateway
    ensures value { result ≡ fresh own gates terms.life terms.most }
    ensures stands { Stands gates terms.life terms.most own result 1 empty_gate }
{
    Gateway::new(own, gates, terms)
}

/// A word is brought from outside, with a tag drawn for a reply, if one was; 0 is none. A refusal changes nothing.
#[tactic(auto, using(crate::proofs::Followed::take_follows))]
pub fn take(gate: &mut Gateway, word: Word, drawn: Option<u64>) -> Result<Taken, Refusal>
    ensures answer { result ≡ took word (unwrap_or drawn 0) gate.old }
    ensures after { gate.new ≡ took_after word (unwrap_or drawn 0) gate.old }
    ensures follows { TakeFollows word (unwrap_or drawn 0) gate.old result gate.new }
{
    gate.take(word, drawn)
}

/// A packet is put in, by the owners of its source and its destination. A refusal changes nothing.
#[tactic(auto, using(crate::proofs::Followed::put_follows))]
pub fn put(gate: &mut Gateway, owners: Owners) -> Result<Option<Word>, Refusal>
    ensures answer { result ≡ put_answer owners.source owners.goal gate.old }
    ensures after { gate.new ≡ put_after owners.source owners.goal gate.old }
    ensures follows { PutFollows owners.source owners.goal gate.old result gate.new }
{
    gate.put(owners)
}

/// Makes a hello to a gate under a drawn tag, if one can be made; else nothing is changed.
#[tactic(auto, using(crate::proofs::Followed::greet_follows))]
pub fn greet(gate: &mut Gateway, to: u8, tag: u64) -> Option<Word>
    ensures answer { result ≡ greet_answer to tag gate.old }
    ensures after { gate.new ≡ greet_after to tag gate.old }
    ensures follows { GreetFollows to tag gate.old result gate.new }
{
    gate.greet(to, tag)
}

/// A tick passes.
#[tactic(auto, using(crate::proofs::Followed::tick_follows))]
pub fn tick(gate: &mut Gateway)
    ensures after { gate.new ≡ ticked gate.old }
    ensures follows { TickFollows gate.old gate.new }
{
    gate.tick();
}

/// The gate is switched off and on.
#[tactic(auto, using(crate::proofs::Followed::restart_follows))]
pub fn restart(gate: &mut Gateway)
    ensures after { gate.new ≡ restarted gate.old }
    ensures follows { RestartFollows gate.old gate.new }
{
    gate.restart();
}

// Any gates that run these calls, and a net, do only runs of the abstract protocol: the calls are the code that it asks for.
#[tactic(auto, using(crate::proofs::Asks::as_asked))]
pub fn code_is_as_asked()
    ensures { AsAsked }
{}
