// Theorems about plans, each as a function's contract: those that are made step by step, and those
// that texts say, are allowed. Assumes nothing.
#![tactic(auto)]

ghost use Rattle.agreement.specs.Agreement.{PlansAreSound};
ghost use Rattle.agreement.specs.Drafts.{DraftsAreSound};

/// States that a plan is allowed when it is begun, and stays so with every gate that is added.
pub fn plans_stated()
    ensures { PlansAreSound }
{}

/// States that a plan that is read from a text is allowed, whatever the text.
pub fn drafts_stated()
    ensures { DraftsAreSound }
{}
