// The balance of a run's totals against sold fuel.
#![tactic(auto)]

ghost use Rattle.std.specs.Prelude.{◌≡◌, ◌-◌, ◌≤◌, ◌<◌};
ghost use Rattle.inventory.specs.Printed.{printed_total};
ghost use Rattle.balance.specs.Balance.{balanced_answer, balance_of, ratio_in_range, BalanceNear, printed_fuel};
ghost use Rattle.balance.specs.Claim.{BalanceClaim};

use inventory::Run;
use long_division::Ratio;
use units::{Grams, Refusal};

// The balance factor in millionths, the digits worked for it, and the balanced total.
#[repr(C)]
#[derive(Clone, Copy)]
pub struct BalanceFigures {
    pub k: u64,
    pub digits: u64,
    pub grams: Grams,
}

// k by long division and the digits it worked, where k is in range. A dividend and a divisor: a struct of the two would say no more.
fn ratio_in_range(s: u64, f: Grams) -> Option<Ratio>
    requires { (s ≤ 999999999) × ((0 < f.0) × (f.0 ≤ 20000000000000000)) }
    ensures { result ≡ ratio_in_range s f.0 }
{
    // k would be above 1,500,001, and a quotient on the way to it might pass 64 bits
    if f.0 < 666666 * s {
        return None;
    }
    let r = long_division::ratio_of(s, f);
    if units::is_outside(500000, 1500000, r.k) {
        return None;
    }
    Some(r)
}

// A total balanced against sold fuel in tonnes. Fuel and quantity are numbers, and each is a parameter: callers hand over any, C
// one by one, and one that is none is refused with 11.
pub fn balance(run: &Run, fuel: u64, quantity: u64, sold: u64) -> Result<BalanceFigures, Refusal>
    ensures answer { balanced_answer result ≡ balance_of run.now fuel quantity sold }
    ensures near { BalanceNear (balanced_answer result) (printed_total run.now (fuel - 1) (quantity - 1)) sold (printed_fuel run.now (fuel - 1)) }
{
    totals::question_verdict(run, fuel, quantity)?;
    let f = printed::total_at(run, fuel as usize - 1, 4);
    if f.0 == 0 {
        return Err(Refusal::NoFuelUsed);
    }
    if 999999999 < sold {
        return Err(Refusal::SoldFuel);
    }
    let r = ratio_in_range(sold, f).ok_or(Refusal::SoldFuel)?;
    let t = printed::total_at(run, fuel as usize - 1, quantity as usize - 1);
    Ok(BalanceFigures {
        k: r.k,
        digits: r.digits,
        grams: units::scaled(t, r.k, 1000000),
    })
}

// Does nothing: its contract is what holds of the digits of every balance.
#[tactic(auto, using(crate::proofs::Digits::whole))]
pub fn balance_claim()
    ensures { BalanceClaim }
{}
