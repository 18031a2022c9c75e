// Worked histories of adds and joins as a claim that the check names.
#![tactic(auto)]

ghost use Rattle.worked_joins.specs.Worked.{WorkedJoinsClaim};

// Does nothing: its contract is the worked histories, whole.
pub fn worked_joins_claim()
    ensures { WorkedJoinsClaim }
{}
