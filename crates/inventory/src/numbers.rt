// What the test of order reads of a run, wherever its numbers lie.
#![tactic(auto)]

ghost use Rattle.std.specs.Prelude.{◌≡◌, ◌<◌, get_or};
ghost use Rattle.classes.specs.Classes.{x_count};
ghost use Rattle.inventory.specs.declared.Run.{Run};
ghost use Rattle.inventory.specs.Amounts.{sum_amount, total_amount};

use crate::{Amount, Run};
use units::VehicleKm;

pub trait RunNumbers {
    // The run whose numbers these are.
    ghost run: { Self → Run };

    fn trip(&self) -> u64
        ensures { result ≡ (run self.now).trip };

    fn x(&self, i: usize) -> u64
        requires { i < x_count }
        ensures { result ≡ get_or (run self.now).x i 0 };

    fn count(&self) -> u64
        ensures { result ≡ (run self.now).count };

    // The kilometres of a fuel, by its place in the run.
    fn km(&self, fuel: usize) -> VehicleKm
        requires { fuel < 3 }
        ensures { result ≡ get_or (run self.now).km fuel (record { 0 = 0 }) };

    // The sum and the stored total at a place.
    fn sum(&self, j: usize) -> Amount
        requires { j < 60 }
        ensures { result ≡ sum_amount (run self.now) j };

    fn total(&self, k: usize) -> Amount
        requires { k < 15 }
        ensures { result ≡ total_amount (run self.now) k };
}

impl RunNumbers for Run {
    ghost run = { λ r. r };

    fn trip(&self) -> u64 {
        self.trip
    }

    fn x(&self, i: usize) -> u64 {
        self.x[i]
    }

    fn count(&self) -> u64 {
        self.count
    }

    fn km(&self, fuel: usize) -> VehicleKm {
        self.km[fuel]
    }

    fn sum(&self, j: usize) -> Amount {
        Run::sum(self, j)
    }

    fn total(&self, k: usize) -> Amount {
        Run::total(self, k)
    }
}
