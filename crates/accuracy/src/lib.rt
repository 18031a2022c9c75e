// SPECIFICATION, "Accuracy" (demand 3) and "Figures", as claims that the check names.
#![tactic(auto)]

ghost use Rattle.accuracy.specs.Claim.{AccuracyClaim};
ghost use Rattle.accuracy.specs.ColdValues.{ColdValuesClaim};
ghost use Rattle.accuracy.specs.History.{HistoryClaim};
ghost use Rattle.accuracy.specs.Numbers.{NumbersClaim};

// Does nothing: its contract is all of SPECIFICATION, "Accuracy".
pub fn accuracy_claim()
    ensures { AccuracyClaim }
{}

// Does nothing: its contract is the same for every history of adds and joins.
pub fn history_claim()
    ensures { HistoryClaim }
{}

// Does nothing: its contract is X by class and quantity, rounded and unrounded.
pub fn cold_values_claim()
    ensures { ColdValuesClaim }
{}

// Does nothing: its contract is the table of figures, whole.
pub fn numbers_claim()
    ensures { NumbersClaim }
{}
