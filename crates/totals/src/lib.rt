// The printed kinds and totals of a run.
#![tactic(auto)]

ghost use Rattle.std.specs.Prelude.{◌≡◌};
ghost use Rattle.units.specs.Refusals.{answer_number};
ghost use Rattle.units.specs.Grounds.{first_fit};
ghost use Rattle.inventory.specs.Printed.{kind_place, total_grounds, printed_answer, total_of, kind_of};
ghost use Rattle.totals.specs.Kinds.{KindsClaim};

use inventory::{Kind, Run};
use units::{Grams, Refusal};

// The place of a kind among the four.
pub fn kind_place(kind: Kind) -> usize
    ensures { result ≡ kind_place kind }
{
    kind as usize
}

// Whether a question is refused: 16, then 11. Fuel and quantity are numbers, and each is a parameter: callers hand over any, C one
// by one.
#[tactic(auto, using(inventory::proofs::Totals::refused_order, inventory::proofs::Totals::refused_fuel, inventory::proofs::Totals::refused_quantity, inventory::proofs::Totals::asked), unfolding(units::specs::Refusals::answer_number, units::specs::Refusals::refusal_number))]
pub fn question_verdict(run: &Run, fuel: u64, quantity: u64) -> Result<(), Refusal>
    ensures { answer_number result ≡ first_fit (total_grounds run.now fuel quantity) }
{
    if !order::in_order(run) {
        return Err(Refusal::RunOrder);
    }
    if units::is_outside(1, 3, fuel) || units::is_outside(1, 5, quantity) {
        return Err(Refusal::FuelOrQuantity);
    }
    Ok(())
}

// One printed kind of a fuel and a quantity.
pub fn kind_total(run: &Run, fuel: u64, quantity: u64, kind: Kind) -> Result<Grams, Refusal>
    ensures { printed_answer result ≡ kind_of run.now fuel quantity kind }
{
    question_verdict(run, fuel, quantity)?;
    let j = (fuel as usize - 1) * 20 + (quantity as usize - 1) * 4 + kind_place(kind);
    Ok(printed::kind_at(run, j))
}

// The printed total of a fuel and a quantity.
pub fn total(run: &Run, fuel: u64, quantity: u64) -> Result<Grams, Refusal>
    ensures { printed_answer result ≡ total_of run.now fuel quantity }
{
    question_verdict(run, fuel, quantity)?;
    Ok(printed::total_at(run, fuel as usize - 1, quantity as usize - 1))
}

// Does nothing: its contract is that the printed kinds miss the printed total by at most 2 g.
#[tactic(auto, using(crate::proofs::Near::whole))]
pub fn kinds_claim()
    ensures { KindsClaim }
{}
