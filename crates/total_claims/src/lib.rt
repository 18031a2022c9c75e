// Document 02, job 7, as a claim that the check names.
#![tactic(auto)]

ghost use Rattle.total_claims.specs.Claim.{TotalsClaim};

// Does nothing: its contract is what holds of the totals that a run stores.
#[tactic(auto, using(crate::proofs::Whole::whole))]
pub fn totals_claim()
    ensures { TotalsClaim }
{}
