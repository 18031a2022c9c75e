// Whether the sums and totals of a run are in order, wherever its numbers lie.
#![tactic(auto)]

ghost use Rattle.std.specs.Prelude.{◌≡◌, true, ◌≤◌, ◌<◌};
ghost use Rattle.units.specs.Lists.{all_below};
ghost use Rattle.inventory.specs.Order.{sum_within, sum_ok, sums_ok};
ghost use Rattle.run_sums.specs.Marks.{rest_mark};

use inventory::{Amount, RunNumbers};
use units::Grams;

// Whether a sum has its rest below the limit and is at most limit grams.
#[tactic(auto, unfolding(inventory::specs::Order::sum_within))]
pub fn sum_ok(limit: Grams, a: Amount) -> bool
    ensures { result ≡ sum_within limit.0 a.grams.0 a.rest }
{
    if 1000000000 <= a.rest {
        return false;
    }
    a.grams.0 < limit.0 || a.grams.0 == limit.0 && a.rest == 0
}

// Whether the sums are in order, sum by sum. What it requires is one comparison: a RunNumbers may be in no order.
fn each_sum_ok<R: RunNumbers>(run: &R) -> bool
    requires { (R.run run.now).count ≤ 5000 }
    ensures { result ≡ all_below (sum_ok (R.run run.now)) 60 }
{
    let limit = Grams(1000000000000 * run.count());
    (0..60).all(|k| sum_ok(limit, run.sum(k)))
}

// A number that is below 2^29 only for a rest below its limit, and stays so under `or`.
pub fn rest_mark(rest: u64) -> u64
    ensures { result ≡ rest_mark rest }
{
    rest / 2 + 36870912
}

// The first n amounts under `or`, which has no branch and is fast: none has more grams or a greater rest.
fn or_of<F: Fn(usize) -> Amount>(n: usize, amount: F) -> Amount
    requires { (i : _) → i < n → F.pre amount i }
    ensures { (i : _) → i < n → ((a : _) × F.post amount i a × (a.grams.0 ≤ result.grams.0) × (a.rest ≤ result.rest)) }
{
    let mut grams: u64 = 0;
    let mut rest: u64 = 0;
    for i in 0..n {
        let a = amount(i);
        grams |= a.grams.0;
        rest |= a.rest;
    }
    Amount {
        grams: Grams(grams),
        rest,
    }
}

// Where it says yes, every sum and every total is 0.
fn nothing_in<R: RunNumbers>(run: &R) -> bool
    ensures { result ≡ true → true ≡ sums_ok (R.run run.now) }
{
    let sums = or_of(60, |j| run.sum(j));
    let totals = or_of(15, |k| run.total(k));
    sums.grams.0 | sums.rest | (totals.grams.0 | totals.rest) == 0
}

// A sum with the mark of its rest for the rest.
fn marked(sum: Amount) -> Amount
    ensures { (result.grams ≡ sum.grams) × (result.rest ≡ rest_mark sum.rest) }
{
    Amount {
        grams: sum.grams,
        rest: rest_mark(sum.rest),
    }
}

// Whether the sums are in order: sum by sum only where the grams and the marks together do not decide.
fn kinds_ok<R: RunNumbers>(run: &R) -> bool
    requires { (R.run run.now).count ≤ 5000 }
    ensures { result ≡ all_below (sum_ok (R.run run.now)) 60 }
{
    let sums = or_of(60, |j| marked(run.sum(j)));
    if sums.rest < 536870912 && sums.grams.0 < 1000000000000 * run.count() {
        return true;
    }
    each_sum_ok(run)
}

// Whether the sums and totals are in order; those of a run without records are 0.
pub fn sums_ok<R: RunNumbers>(run: &R) -> bool
    requires { (R.run run.now).count ≤ 5000 }
    ensures { result ≡ sums_ok (R.run run.now) }
{
    if run.count() == 0 && nothing_in(run) {
        return true;
    }
    kinds_ok(run) && stored_totals::totals_ok(run)
}
