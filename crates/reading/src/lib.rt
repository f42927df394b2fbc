// Theorems of the bytes of words and of reading them: each function's contract is one of them, and
// calling it does nothing.
#![tactic(auto)]

ghost use Rattle.reading.specs.Order.{FirstFault};
ghost use Rattle.reading.specs.Sealed.{ReadsBack, Lengths, Gates, Local};

/// Reading what was sealed gives the word back, where the gate can open it.
#[tactic(auto, using(crate::proofs::Back::reads_back))]
pub fn sealed_words_read_back()
    ensures { ReadsBack }
{}

/// Every sealed word has its kind's length.
#[tactic(auto, using(crate::proofs::Back::lengths))]
pub fn sealed_words_have_their_length()
    ensures { Lengths }
{}

/// Reading looks at one key and one talk: the maker's, and the one that the tag names.
#[tactic(auto, using(crate::proofs::Near::local))]
pub fn reading_looks_at_one_key_and_talk()
    ensures { Local }
{}

/// The refusal is the first fault in the order, for all bytes.
#[tactic(auto, using(crate::proofs::First::first_fault))]
pub fn first_fault_is_answered()
    ensures { FirstFault }
{}

/// A sealed word that reads has the kind, the maker and the opener that it was sealed with.
pub fn reading_keeps_maker_and_opener()
    ensures { Gates }
{}
