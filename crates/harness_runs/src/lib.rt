// What the test programs share about runs: a run set by hand, and the numbers of a run in one row.
#![tactic(auto)]

ghost use Rattle.std.specs.Prelude.{◌≡◌, ◌%◌, cond, eqb, min};
ghost use Rattle.inventory.specs.Printed.{kind_place};
ghost use Rattle.harness_runs.specs.Runs.{set_field, field_at};

use inventory::{Amount, Kind, Run};
use units::{Grams, VehicleKm};

// Here and in `set_field` and `field_at` numbers choose: the lines of standard input and the expected answers are of numbers.
//
// The kind of a number, which a line of standard input holds.
pub fn kind_of(n: u64) -> Kind
    ensures { kind_place result ≡ min n 3 }
{
    match n {
        0 => Kind::Urban,
        1 => Kind::Rural,
        2 => Kind::Highway,
        _ => Kind::Cold,
    }
}

// One number of a run set by hand, by the number of its field, as a line of standard input has it.
#[tactic(auto, unfolding(crate::specs::Runs::set_field))]
pub fn set_field(run: &mut Run, field: u64, k: u64, value: u64)
    ensures { run.new ≡ set_field run.old field k value }
{
    match field {
        0 => run.trip = value,
        1 if k < 16 => run.x[k as usize] = value,
        2 => run.count = value,
        3 if k < 3 => run.km[k as usize] = VehicleKm(value),
        4 if k < 60 => run.grams[k as usize] = Grams(value),
        5 if k < 60 => run.rests[k as usize] = value,
        6 if k < 15 => run.total_grams[k as usize] = Grams(value),
        7 if k < 15 => run.total_rests[k as usize] = value,
        _ => {}
    }
}

// The grams of an amount at an odd place, its rest at an even one.
fn number_at(a: Amount, i: usize) -> u64
    ensures { result ≡ cond (eqb (i % 2) 1) a.grams.0 a.rest }
{
    if i % 2 == 1 { a.grams.0 } else { a.rest }
}

// Number i of a run's 171, as the expected answers list them.
#[tactic(auto, unfolding(crate::specs::Runs::field_at, crate::specs::Runs::total_field))]
pub fn field_at(run: &Run, i: usize) -> u64
    ensures { result ≡ field_at run.now i }
{
    match i {
        0 => run.trip,
        1..17 => run.x[i - 1],
        17 => run.count,
        18..21 => run.km[i - 18].0,
        21..141 => number_at(run.sum((i - 21) / 2), i),
        141..171 => number_at(run.total((i - 141) / 2), i),
        _ => 0,
    }
}
