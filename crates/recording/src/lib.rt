// Opening a run and adding records to it.
#![tactic(auto)]

ghost use Rattle.std.specs.Prelude.{◌≡◌, ◌<◌, true};
ghost use Rattle.units.specs.Grounds.{first_fit};
ghost use Rattle.units.specs.Refusals.{answer_number};
ghost use Rattle.inventory.specs.Order.{in_order};
ghost use Rattle.inventory.specs.Limits.{RecordLimits, RunLimits};
ghost use Rattle.inventory.specs.Opening.{zero_run, open_number, open_run, given_run};
ghost use Rattle.inventory.specs.Adding.{with_totals, raised, run_with, ordered_grounds, raised_run, add_number, add_run};
ghost use Rattle.accuracy.specs.Claim.{EveryList};

use inventory::{Head, Record, Run};
use units::{Grams, Refusal, VehicleKm};

// The run of zeros.
pub fn zeros() -> Run
    ensures { result ≡ zero_run }
{
    Run {
        trip: 0,
        x: [0; 16],
        count: 0,
        km: [VehicleKm(0); 3],
        grams: [Grams(0); 60],
        rests: [0; 60],
        total_grams: [Grams(0); 15],
        total_rests: [0; 15],
    }
}

// Opens a run: 1, 2, 19, 20. The last clause is SPECIFICATION, "Accuracy", for every list of adds.
pub fn open_run(head: Head) -> Result<Run, Refusal>
    ensures number { answer_number result ≡ open_number head }
    ensures run { given_run result ≡ open_run head }
    ensures lists { answer_number result ≡ 0 → EveryList head }
{
    verdicts::head_verdict(&head)?;
    let mut run = zeros();
    run.trip = head.trip;
    run.x = cold_values::cold_values(head.trip, &head.temps, head.period);
    Ok(run)
}

// Whether an add to a run in order with so many records is refused: 3 to 8, then 9.
pub fn add_verdict(count: u64, rec: &Record) -> Result<(), Refusal>
    ensures { answer_number result ≡ first_fit (ordered_grounds count rec.now) }
{
    verdicts::record_verdict(rec)?;
    if 5000 <= count {
        return Err(Refusal::FullRun);
    }
    Ok(())
}

// Takes a record into count, kilometres and sums; the totals are still those of before.
fn raise(run: &mut Run, rec: Record)
    requires record_limits { RecordLimits rec }
    requires run_limits { RunLimits run.old × (run.old.count < 5000) }
    ensures { run.new ≡ raised run.old rec }
{
    sums::add_sums(run, rec);
    kilometres::add_km(run, rec);
    run.count += 1;
}

// Takes a record; of the totals only those of its fuel are made anew.
pub fn enter(run: &mut Run, rec: Record)
    requires record_limits { RecordLimits rec }
    requires run_value { (in_order run.old ≡ true) × (run.old.count < 5000) }
    ensures { run.new ≡ run_with run.old rec }
{
    raise(run, rec);
    let first = classes::fuel_of(rec.class) * 5;
    run_totals::make_totals(run, first, first + 5);
}

// Adds a record of a sheet or a list to a run that will be in order once its totals are made, at the end: 3 to 9.
// A Run crosses from C with any numbers, so no type of it carries what this requires; add_list and sheet ask it of their loops too.
pub fn add_before_totals(run: &mut Run, rec: Record) -> Result<(), Refusal>
    requires { in_order (with_totals run.old) ≡ true }
    ensures number { answer_number result ≡ first_fit (ordered_grounds run.old.count rec) }
    ensures run { run.new ≡ raised_run run.old rec }
{
    add_verdict(run.count, &rec)?;
    raise(run, rec);
    Ok(())
}

// Whether an add is refused: 16, then 3 to 9.
fn run_verdict(run: &Run, rec: &Record) -> Result<(), Refusal>
    ensures { answer_number result ≡ add_number run.now rec.now }
{
    if !order::in_order(run) {
        return Err(Refusal::RunOrder);
    }
    add_verdict(run.count, rec)
}

// Adds a record to a run; a refused record leaves the run as it came.
pub fn add(run: &mut Run, rec: Record) -> Result<(), Refusal>
    ensures number { answer_number result ≡ add_number run.old rec }
    ensures run { run.new ≡ add_run run.old rec }
{
    run_verdict(run, &rec)?;
    enter(run, rec);
    Ok(())
}
