// Opening areas, which are lent as 2,737 numbers.
#![tactic(auto)]

ghost use Rattle.std.specs.Prelude.{◌≡◌, length};
ghost use Rattle.units.specs.Refusals.{answer_number};
ghost use Rattle.areas.specs.Numbers.{numbers_of};
ghost use Rattle.areas.specs.Calls.{open_areas_number, open_areas_numbers};
ghost use Rattle.area_opening.specs.Opening.{same_runs};

use inventory::{Head, Run};
use units::Refusal;

// Copies the numbers of an area. At this length std's copy_from_slice is a call of memmove, and the archive needs nothing but memcpy
// and memset.
fn copy(area: &mut [u64], one: &[u64])
    requires { length area.old ≡ length one.now }
    ensures { area.new ≡ one.now }
{
    for (i, place) in area.iter_mut().enumerate() {
        *place = one[i];
    }
}

// Writes one run to all sixteen areas, with no common use.
fn spread(numbers: &mut [u64], run: &Run)
    requires { length numbers.old ≡ 2737 }
    ensures { numbers.new ≡ numbers_of (same_runs run.now) }
{
    // its numbers are made once and copied: faster than writing the run sixteen times
    let mut one = [0; 171];
    area_runs::put_run(&mut one, run);
    // by index: the contract of chunks_exact_mut says nothing of what stands in the numbers behind the loop
    for i in 0..16 {
        copy(&mut numbers[i * 171..i * 171 + 171], &one);
    }
    numbers[2736] = 0;
}

// Opens areas: 16 where there are not 2,737 numbers, which then stay as they came; then 1, 2, 19, 20, which leave areas of zeros.
pub fn open_areas(numbers: &mut [u64], head: Head) -> Result<(), Refusal>
    ensures number { answer_number result ≡ open_areas_number numbers.old head }
    ensures numbers { numbers.new ≡ open_areas_numbers numbers.old head }
{
    if numbers.len() != 2737 {
        return Err(Refusal::RunOrder);
    }
    let opened = recording::open_run(head);
    spread(numbers, &opened.unwrap_or(recording::zeros()));
    opened.map(|_| ())
}
