// Whether the totals that a run stores are those of its sums.
#![tactic(auto)]

ghost use Rattle.std.specs.Prelude.{◌≡◌, true, ◌+◌, ◌≤◌, ◌<◌};
ghost use Rattle.units.specs.Lists.{all_below};
ghost use Rattle.inventory.specs.Order.{in_billionths, is_amount, sum_ok, total_ok};
ghost use Rattle.inventory.specs.Limits.{AmountLimits};

use inventory::{Amount, RunNumbers};

// Whether a total is the sum of its four kinds: what it has above their whole grams is what their rests carry, at most 3 g.
pub fn is_total(total: Amount, a: Amount, b: Amount, c: Amount, d: Amount) -> bool
    requires { AmountLimits a × AmountLimits b × AmountLimits c × AmountLimits d }
    ensures { result ≡ is_amount (in_billionths a + in_billionths b + in_billionths c + in_billionths d) total.grams.0 total.rest }
{
    let kinds = a.grams.0 + b.grams.0 + c.grams.0 + d.grams.0;
    // Wraps around to a number that no rests carry where the kinds have more grams than the total: `checked_sub` was slower by a
    // twelfth of the whole test of order (docs/PERFORMANCE.md).
    let carry = total.grams.0.wrapping_sub(kinds);
    if 3 < carry || 1000000000 <= total.rest {
        return false;
    }
    carry * 1000000000 + total.rest == a.rest + b.rest + c.rest + d.rest
}

// What it requires has been tested by then: a RunNumbers may be in no order, so no type carries it.
fn total_ok<R: RunNumbers>(run: &R, k: usize) -> bool
    requires { (k < 15) × ((R.run run.now).count ≤ 5000) × (all_below (sum_ok (R.run run.now)) 60 ≡ true) }
    ensures { result ≡ total_ok (R.run run.now) k }
{
    let j = k * 4;
    is_total(
        run.total(k),
        run.sum(j),
        run.sum(j + 1),
        run.sum(j + 2),
        run.sum(j + 3),
    )
}

// Whether the totals of a run whose sums are in order are in order.
pub fn totals_ok<R: RunNumbers>(run: &R) -> bool
    requires { ((R.run run.now).count ≤ 5000) × (all_below (sum_ok (R.run run.now)) 60 ≡ true) }
    ensures { result ≡ all_below (total_ok (R.run run.now)) 15 }
{
    (0..15).all(|k| total_ok(run, k))
}
