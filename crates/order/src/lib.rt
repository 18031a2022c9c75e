// The test of a run's order, wherever its numbers lie.
#![tactic(auto)]

ghost use Rattle.std.specs.Prelude.{◌≡◌, ◌<◌, ◌≤◌, ◌&&◌, not, leb};
ghost use Rattle.units.specs.Lists.{all_below};
ghost use Rattle.units.specs.Grounds.{outside};
ghost use Rattle.classes.specs.Classes.{x_count};
ghost use Rattle.inventory.specs.Order.{in_order, x_ok, km_ok, sums_ok, same_head, record_limit};

use inventory::RunNumbers;

// Whether each X is in range.
pub fn xs_ok<R: RunNumbers>(run: &R) -> bool
    ensures { result ≡ all_below (x_ok (R.run run.now)) x_count }
{
    (0..16).all(|i| run.x(i) <= 4900000000)
}

// Whether L and each X are in range.
pub fn head_ok<R: RunNumbers>(run: &R) -> bool
    ensures { result ≡ (not (outside 10 200 (R.run run.now).trip) && all_below (x_ok (R.run run.now)) x_count) }
{
    !units::is_outside(10, 200, run.trip()) && xs_ok(run)
}

// A RunNumbers may be in no order, so no type carries the count's bound: here, in run_sums and in stored_totals it is one comparison.
fn kms_ok<R: RunNumbers>(run: &R) -> bool
    requires { (R.run run.now).count ≤ 5000 }
    ensures { result ≡ all_below (km_ok (R.run run.now)) 3 }
{
    let limit = 1000000000 * run.count();
    (0..3).all(|fuel| run.km(fuel).0 <= limit)
}

// Whether the count, the sums, the totals and the kilometres are in order.
pub fn amounts_ok<R: RunNumbers>(run: &R) -> bool
    ensures { result ≡ (leb (R.run run.now).count record_limit && sums_ok (R.run run.now) && all_below (km_ok (R.run run.now)) 3) }
{
    run.count() <= 5000 && run_sums::sums_ok(run) && kms_ok(run)
}

// Whether the run is in order.
pub fn in_order<R: RunNumbers>(run: &R) -> bool
    ensures { result ≡ in_order (R.run run.now) }
{
    head_ok(run) && amounts_ok(run)
}

// Whether two runs have the same L and the same X.
pub fn same_head<A: RunNumbers, B: RunNumbers>(a: &A, b: &B) -> bool
    ensures { result ≡ same_head (A.run a.now) (B.run b.now) }
{
    a.trip() == b.trip()
        && (0..16).all(
            |i|
                requires { i < x_count }
            { a.x(i) == b.x(i) },
        )
}
