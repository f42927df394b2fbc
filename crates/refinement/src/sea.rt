// Gates and a net of words, driven by events; the promise stands on `play`. Assumes that drawn tags are new, where a contract says so.
ghost use Rattle.std.specs.Prelude.{◌≡◌, ℕ, ◌+◌, ◌<◌, ◌≤◌, true, ◌++◌, length, take as front, is_ok, IfOk, if◌then◌else◌, vec_len, vec_capacity};
ghost use Rattle.refinement.specs.Sea.{list_of, happens, plays, Plays, Books, AllCarried, books_of, HasRoom, new_gates, Begun, CanOpen};

use crate::acts::act;
use crate::calls::start;
use crate::state::{Event, Letter, Sea};
use gateway::{Gateway, Terms};
use std::alloc::{AllocError, Global};

/// Adds a letter, if there is one, where there is room for it.
fn note(list: &mut Vec<Letter>, letter: Option<Letter>)
    requires { vec_len list.old < vec_capacity list.old }
    ensures { list.new.items ≡ list.old.items ++ list_of letter }
{
    if let Some(letter) = letter {
        list.push_reserved(letter);
    }
}

/// Gates that were just made, by their numbers.
fn made(heap: Global, gates: u8, terms: Terms) -> Result<Vec<Gateway>, AllocError>
    ensures { IfOk result (λ v. v.items ≡ new_gates gates terms.life terms.most gates) }
{
    (0..gates).map(|own| start(own, gates, terms)).collect(heap)
}

impl Sea {
    /// Gates that were just made, and an empty net; and for how long each talk is good.
    #[tactic(auto, using(crate::proofs::Begins::begun, crate::proofs::Carrying::none_carried))]
    pub fn new(heap: Global, gates: u8, terms: Terms) -> Result<Sea, AllocError>
        ensures begins { IfOk result (λ s. Begun gates terms.life terms.most (books_of s)) }
        ensures carried { IfOk result (λ s. AllCarried (books_of s)) }
    {
        Ok(Sea {
            gates: made(heap, gates, terms)?,
            net: Vec::new(heap),
            put: Vec::new(heap),
            out: Vec::new(heap),
        })
    }

    // Three lists are lent, each by one line: no plainer as one function that is told which.
    /// All words that were made, the earliest first.
    pub fn words(&self) -> &[Letter]
        ensures { result.now ≡ self.now.net.items }
    {
        self.net.as_slice()
    }

    /// All that was put in and went out, the earliest first, each in the word that it went out in and with its packet (`carried` of `new`, `step` and `play`).
    pub fn put_in(&self) -> &[Letter]
        ensures { result.now ≡ self.now.put.items }
    {
        self.put.as_slice()
    }

    /// All that came out, the earliest first, each in the word that it came in and with its packet (the same).
    pub fn came_out(&self) -> &[Letter]
        ensures { result.now ≡ self.now.out.items }
    {
        self.out.as_slice()
    }

    /// Makes room for one letter more in each list. It changes nothing else.
    fn make_room(&mut self) -> Result<(), AllocError>
        ensures same { books_of self.new ≡ books_of self.old }
        ensures room { is_ok result ≡ true → HasRoom self.new }
    {
        self.net.reserve(1)?;
        self.put.reserve(1)?;
        self.out.reserve(1)
    }

    /// One event happens. Where its gate or its letter is not there, nothing does; where there is no memory for it, neither, and that is said.
    #[tactic(auto, using(crate::proofs::Carrying::stepped_carried))]
    pub fn step(&mut self, owners: &[u8], event: Event) -> Result<(), AllocError>
        ensures happens { books_of self.new ≡ (if is_ok result then happens owners.now event (books_of self.old) else books_of self.old) }
        ensures carried { AllCarried (books_of self.old) → AllCarried (books_of self.new) }
    {
        self.make_room()?;
        let Some(memory) = self.gates.get_mut(usize::from(event.gate)) else {
            return Ok(());
        };
        if let Some(outcome) = act(memory, owners, self.net.as_slice(), event.kind) {
            note(&mut self.net, outcome.sent);
            note(&mut self.put, outcome.put);
            note(&mut self.out, outcome.out);
        }
        Ok(())
    }

    /// PLAYS A LIST OF EVENTS, and answers how many of them it played: all, or those before memory ran out. Whoever owns which address, and whatever the events
    /// are, while the tags that they offer are new: what came out was put in, by whom it says, for here, once; nothing else goes over the net; and the
    /// gates and the net are those of a run of the abstract protocol, so that all of its promise holds of them.
    #[tactic(auto, using(crate::proofs::Begins::playing))]
    pub fn play(&mut self, owners: &[u8], events: &[Event]) -> usize
        ensures within { result ≤ length events.now }
        ensures played { books_of self.new ≡ plays owners.now (front result events.now) (books_of self.old) }
        ensures keeps { Plays owners.now (front result events.now) (books_of self.old) (books_of self.new) }
        ensures carried { AllCarried (books_of self.old) → AllCarried (books_of self.new) }
    {
        for (played, event) in events.iter().enumerate() {
            if self.step(owners, *event).is_err() {
                return played;
            }
        }
        events.len()
    }
}

// From every state that gates and a net reach, a hello of a new tick and its reply give two gates a talk, and what is then put in comes out, once.
#[tactic(auto, using(crate::proofs::Opening::can_open))]
pub fn it_always_can()
    ensures { CanOpen }
{}
