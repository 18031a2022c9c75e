// Whether areas that a caller lends are in order, tested where they lie.
#![tactic(auto)]

ghost use Rattle.std.specs.Prelude.{◌≡◌, true, ◌&&◌, not};
ghost use Rattle.units.specs.Lists.{all_below};
ghost use Rattle.units.specs.Grounds.{outside};
ghost use Rattle.classes.specs.Classes.{x_count};
ghost use Rattle.inventory.specs.Order.{in_order, x_ok, same_head};
ghost use Rattle.areas.specs.Numbers.{run_at};
ghost use Rattle.areas.specs.Calls.{numbers_in_order};

use areas::AreaRun;
use inventory::RunNumbers;

// Whether a run is in order and has the head of the first, whose L and X are in range.
fn area_ok(first: &AreaRun, run: &AreaRun) -> bool
    requires { (not (outside 10 200 (run_at first.now.numbers.now 0).trip) && all_below (x_ok (run_at first.now.numbers.now 0)) x_count) ≡ true }
    ensures { result ≡ (in_order (run_at run.now.numbers.now 0) && same_head (run_at first.now.numbers.now 0) (run_at run.now.numbers.now 0)) }
{
    order::same_head(first, run) && order::amounts_ok(run)
}

// Whether the numbers are areas in order.
#[tactic(auto, using(crate::proofs::Tests::bad_length, crate::proofs::Tests::first_bad), unfolding(units::specs::Lists::all_below, units::specs::Lists::sum_to))]
pub fn in_order(numbers: &[u64]) -> bool
    ensures { result ≡ numbers_in_order numbers.now }
{
    if numbers.len() != 2737 {
        return false;
    }
    let first = AreaRun::at(numbers, 0);
    if !order::head_ok(&first) {
        return false;
    }
    let mut common: u64 = 0;
    // by number: chunks_exact leaves the place and the length of each part to the proof, and AreaRun::at promises both
    for i in 0..16 {
        let run = AreaRun::at(numbers, i);
        if !area_ok(&first, &run) {
            return false;
        }
        // its records beyond its own 300
        common += run.count().saturating_sub(300);
    }
    numbers[2736] == common && common <= 200
}
