// The run of an area: read from its numbers, and written to them.
#![tactic(auto)]

ghost use Rattle.std.specs.Prelude.{◌≡◌, ℕ, ◌+◌, ◌≤◌, ◌<◌, length};
ghost use Rattle.units.specs.Lists.{tab};
ghost use Rattle.areas.specs.Numbers.{run_at, run_number};

use areas::AreaRun;
use inventory::{Run, RunNumbers};
use std::array;

// The run of an area.
pub fn run_of(area: &AreaRun) -> Run
    ensures { result ≡ run_at area.now.numbers.now 0 }
{
    Run {
        trip: area.trip(),
        x: array::from_fn(|i| area.x(i)),
        count: area.count(),
        km: array::from_fn(|fuel| area.km(fuel)),
        grams: array::from_fn(|j| area.sum(j).grams),
        rests: array::from_fn(|j| area.sum(j).rest),
        total_grams: array::from_fn(|k| area.total(k).grams),
        total_rests: array::from_fn(|k| area.total(k).rest),
    }
}

// The run in the 171 numbers from a place on.
#[tactic(auto, using(areas::proofs::Numbers::run_between))]
pub fn run_at(numbers: &[u64], at: usize) -> Run
    requires { at + 171 ≤ length numbers.now }
    ensures { result ≡ run_at numbers.now at }
{
    run_of(&AreaRun {
        numbers: &numbers[at..at + 171],
    })
}

// Writes what the closure gives to each place in turn.
fn fill<F: Fn(usize) -> u64>(part: &mut [u64], number: F)
    requires { (i : _) → i < length part.old → F.pre number i }
    ensures { (f : ℕ → ℕ) → ((i x : ℕ) → F.post number i x → x ≡ f i) → part.new ≡ tab f (length part.old) }
{
    for (i, place) in part.iter_mut().enumerate() {
        *place = number(i);
    }
}

// Writes a run to the numbers of an area. At these lengths std's copy_from_slice is a call of memmove, and the archive needs nothing
// but memcpy and memset.
pub fn put_run(area: &mut [u64], run: &Run)
    requires { length area.old ≡ 171 }
    ensures { area.new ≡ tab (run_number run.now) 171 }
{
    area[0] = run.trip;
    fill(&mut area[1..17], |i| run.x[i]);
    area[17] = run.count;
    fill(&mut area[18..21], |fuel| run.km[fuel].0);
    fill(&mut area[21..81], |j| run.grams[j].0);
    fill(&mut area[81..141], |j| run.rests[j]);
    fill(&mut area[141..156], |k| run.total_grams[k].0);
    fill(&mut area[156..171], |k| run.total_rests[k]);
}
