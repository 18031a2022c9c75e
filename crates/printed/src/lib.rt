// One printed kind and one printed total of a run in order, by its place.
#![tactic(auto)]

ghost use Rattle.std.specs.Prelude.{◌≡◌, ◌<◌};
ghost use Rattle.units.specs.Rounding.{half_up};
ghost use Rattle.inventory.specs.Order.{in_billionths, sum_at};
ghost use Rattle.inventory.specs.Limits.{AmountLimits, RunLimits, TotalLimits};
ghost use Rattle.inventory.specs.Printed.{printed_total};

use inventory::{Amount, Run};
use units::Grams;

// An amount in whole grams, half up.
#[tactic(auto, using(inventory::proofs::Totals::half_grams))]
pub fn to_grams(a: Amount) -> Grams
    requires { AmountLimits a }
    ensures { result.0 ≡ half_up (in_billionths a) 1000000000 }
{
    Grams(a.grams.0 + (a.rest + 500000000) / 1000000000)
}

// The printed kind at a place of a run in order.
#[tactic(auto, using(inventory::proofs::Amounts::sum_limits), unfolding(inventory::specs::Order::sum_at))]
pub fn kind_at(run: &Run, j: usize) -> Grams
    requires run_limits { RunLimits run.now }
    requires j_bound { j < 60 }
    ensures { result.0 ≡ half_up (sum_at run.now j) 1000000000 }
{
    to_grams(run.sum(j))
}

// The printed total of a run in order, from the stored one; fuel and quantity are places and count from 0.
#[tactic(auto, using(inventory::proofs::Amounts::total_limits, crate::proofs::Totals::total_half))]
pub fn total_at(run: &Run, fuel: usize, quantity: usize) -> Grams
    requires total_limits { TotalLimits run.now }
    requires fuel_bound { (fuel < 3) × (quantity < 5) }
    ensures { result.0 ≡ printed_total run.now fuel quantity }
{
    to_grams(run.total(fuel * 5 + quantity))
}
