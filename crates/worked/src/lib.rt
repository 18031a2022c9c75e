// Worked lists of records as a claim that the check names.
#![tactic(auto)]

ghost use Rattle.worked.specs.Worked.{WorkedClaim};

// Does nothing: its contract is the worked lists, whole.
pub fn worked_claim()
    ensures { WorkedClaim }
{}
