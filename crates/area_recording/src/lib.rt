// Adding to an area, and the run of one. Areas are lent as 2,737 numbers and changed in place.
#![tactic(auto)]

ghost use Rattle.std.specs.Prelude.{◌≡◌, ◌≤◌, true, List, IfOk, IfErr};
ghost use Rattle.units.specs.Grounds.{Ground, first_fit};
ghost use Rattle.units.specs.Refusals.{answer_number, refusal_number};
ghost use Rattle.inventory.specs.Opening.{given_run};
ghost use Rattle.areas.specs.Calls.{numbers_in_order, call_grounds, add_area_number, add_area_numbers, area_run_number, area_run};

use areas::AreaRun;
use inventory::{Record, Run, RunNumbers};
use units::Refusal;

// The place of an area among areas in order: 16, 17, whatever grounds follow. Here and below, the parameters are what C hands over
// one by one.
fn place_of(numbers: &[u64], area: u64) -> Result<usize, Refusal>
    ensures refused { IfErr result (λ r. (own : List Ground) → refusal_number r ≡ first_fit (call_grounds numbers.now area own)) }
    ensures place { IfOk result (λ i. (i ≡ area) × (area ≤ 15) × (numbers_in_order numbers.now ≡ true)) }
{
    if !area_order::in_order(numbers) {
        return Err(Refusal::RunOrder);
    }
    if 15 < area {
        return Err(Refusal::NoArea);
    }
    Ok(area as usize)
}

// Adds a record to an area: 16, 17, 3 to 8, 18, which leave every number as it came.
pub fn add_area(numbers: &mut [u64], area: u64, rec: Record) -> Result<(), Refusal>
    ensures number { answer_number result ≡ add_area_number numbers.old area rec }
    ensures numbers { numbers.new ≡ add_area_numbers numbers.old area rec }
{
    let i = place_of(numbers, area)?;
    let common = numbers[2736];
    let place = AreaRun::at(numbers, i);
    let count = place.count();
    area_room::area_verdict(count, common, &rec)?;
    let mut run = area_runs::run_of(&place);
    recording::enter(&mut run, rec);
    area_runs::put_run(&mut numbers[i * 171..i * 171 + 171], &run);
    numbers[2736] = area_room::common_after(count, common);
    Ok(())
}

// The run of an area: 16, 17.
pub fn area_run(numbers: &[u64], area: u64) -> Result<Run, Refusal>
    ensures number { answer_number result ≡ area_run_number numbers.now area }
    ensures run { given_run result ≡ area_run numbers.now area }
{
    let place = place_of(numbers, area)?;
    Ok(area_runs::run_of(&AreaRun::at(numbers, place)))
}
