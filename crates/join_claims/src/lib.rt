// SPECIFICATION, "Joining", as a claim that the check names.
#![tactic(auto)]

ghost use Rattle.join_claims.specs.Claim.{JoinClaim};

// Does nothing: its contract is what holds of joining, on any runs, and of the runs of areas.
pub fn join_claim()
    ensures { JoinClaim }
{}
