// The totals that a run stores, made of its sums.
#![tactic(auto)]

ghost use Rattle.std.specs.Prelude.{◌≡◌, ◌+◌, ◌≤◌};
ghost use Rattle.inventory.specs.Order.{in_billionths};
ghost use Rattle.inventory.specs.Adding.{billionths, with_totals};
ghost use Rattle.inventory.specs.Limits.{AmountLimits, SumLimits, RunLimits};
ghost use Rattle.run_totals.specs.Between.{of_amounts, KeptOutside};

use inventory::{Amount, Run};
use units::Grams;

// Two amounts in one: a sum has two sides, and a struct of both would say no more. The carry without a branch: s + 73,741,824
// reaches 2^30 where s reaches 10^9.
#[tactic(auto, using(crate::proofs::Totals::carried))]
pub fn both(a: Amount, b: Amount) -> Amount
    requires { AmountLimits a × AmountLimits b }
    ensures { result ≡ billionths (in_billionths a + in_billionths b) }
{
    let s = a.rest + b.rest;
    let carry = (s + 73741824) / 1073741824;
    Amount {
        grams: Grams(a.grams.0 + b.grams.0 + carry),
        rest: s - carry * 1000000000,
    }
}

// The exact sum of four kinds, one after another: the compiler would else read two neighbours by one load, which waits until
// both are stored.
#[tactic(auto, using(crate::proofs::Totals::amount_at, crate::proofs::Totals::three_in_one))]
fn total_of(a: Amount, b: Amount, c: Amount, d: Amount) -> Amount
    requires { SumLimits a × SumLimits b × SumLimits c × SumLimits d }
    ensures { result ≡ billionths (in_billionths a + in_billionths b + in_billionths c + in_billionths d) }
{
    both(both(both(a, b), c), d)
}

// Makes the totals of a run's sums, where all but those from one place up to another are right already.
pub fn make_totals(run: &mut Run, from: usize, to: usize)
    requires run_limits { RunLimits (of_amounts run.old.grams run.old.rests run.old.total_grams run.old.total_rests) }
    requires from_le_to { (from ≤ to) × (to ≤ 15) × KeptOutside run.old from to }
    ensures { run.new ≡ with_totals run.old }
{
    run.shaped();
    for k in from..to {
        let j = k * 4;
        let total = total_of(run.sum(j), run.sum(j + 1), run.sum(j + 2), run.sum(j + 3));
        run.set_total(k, total);
    }
}
