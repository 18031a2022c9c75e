// The form of a sheet as a claim that the check names.
#![tactic(auto)]

ghost use Rattle.form.specs.Claim.{SheetClaim};

// Does nothing: its contract is "sheets of the stated form, and no others", whole.
pub fn sheet_claim()
    ensures { SheetClaim }
{}
