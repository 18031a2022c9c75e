// Sixteen areas under one head. Their meaning stands in specs/, what is used of it in proofs/; the code is in the crates above.
#![tactic(auto)]

ghost use Rattle.std.specs.Prelude.{◌≡◌, ◌+◌, ◌*◌, ◌≤◌, length};
ghost use Rattle.areas.specs.Numbers.{run_at};

use inventory::{Amount, RunNumbers};
use units::{Grams, VehicleKm};

// The run of an area where it lies: its 171 numbers among those of the areas.
#[derive(Clone, Copy)]
pub struct AreaRun<'a> {
    pub numbers: &'a [u64],
    pub ghost size: { length numbers.now ≡ 171 },
}

impl AreaRun<'_> {
    // The run of area i, which is an area's number and no position among the numbers.
    pub fn at(numbers: &[u64], i: usize) -> AreaRun<'_>
        requires { i * 171 + 171 ≤ length numbers.now }
        ensures { run_at result.numbers.now 0 ≡ run_at numbers.now (i * 171) }
    {
        AreaRun {
            numbers: &numbers[i * 171..i * 171 + 171],
        }
    }
}

#[tactic(auto, using(units::proofs::Tab::tab_at), unfolding(crate::specs::Numbers::run_at))]
impl RunNumbers for AreaRun<'_> {
    ghost run = { λ a. run_at a.numbers.now 0 };

    fn trip(&self) -> u64 {
        self.numbers[0]
    }

    fn x(&self, i: usize) -> u64 {
        self.numbers[1 + i]
    }

    fn count(&self) -> u64 {
        self.numbers[17]
    }

    // fuel is a place below 3, which the trait's contract asks for
    fn km(&self, fuel: usize) -> VehicleKm {
        VehicleKm(self.numbers[18 + fuel])
    }

    // sum and total are the trait's two methods: the same shape over other places
    fn sum(&self, j: usize) -> Amount {
        Amount {
            grams: Grams(self.numbers[21 + j]),
            rest: self.numbers[81 + j],
        }
    }

    fn total(&self, k: usize) -> Amount {
        Amount {
            grams: Grams(self.numbers[141 + k]),
            rest: self.numbers[156 + k],
        }
    }
}
