// SPECIFICATION, "Areas", as a claim that the check names.
#![tactic(auto)]

ghost use Rattle.area_claims.specs.Claim.{AreasClaim};
ghost use Rattle.area_claims.specs.Worked.{AreasWorkedClaim};

// Does nothing: its contract is what holds of areas: opening, every list of adds, and that no area below 300 is starved.
pub fn areas_claim()
    ensures { AreasClaim }
{}

// Does nothing: its contract is a worked list, and 18 at its limits.
pub fn areas_worked_claim()
    ensures { AreasWorkedClaim }
{}
