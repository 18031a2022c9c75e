// Joining two runs into one.
#![tactic(auto)]

ghost use Rattle.std.specs.Prelude.{◌≡◌};
ghost use Rattle.units.specs.Refusals.{answer_number};
ghost use Rattle.inventory.specs.Limits.{RunLimits, TotalLimits};
ghost use Rattle.joins.specs.Joining.{join_number, joined, join_run};

use inventory::Run;
use units::Refusal;

// Adds up the parts of two runs in order.
fn add_up(run: &mut Run, other: &Run)
    requires run_limits { RunLimits run.old × RunLimits other.now }
    requires total_limits { TotalLimits run.old × TotalLimits other.now }
    ensures { run.new ≡ joined run.old other.now }
{
    run.shaped();
    run.count += other.count;
    for (fuel, km) in run.km.iter_mut().enumerate() {
        km.0 += other.km[fuel].0;
    }
    // by place: grams and rests are arrays of their own
    for j in 0..60 {
        let sum = run_totals::both(run.sum(j), other.sum(j));
        run.set_sum(j, sum);
    }
    for k in 0..15 {
        let total = run_totals::both(run.total(k), other.total(k));
        run.set_total(k, total);
    }
}

// Joins a run to another: 16 of either, 21, 22; a refused join leaves it as it came.
pub fn join(run: &mut Run, other: &Run) -> Result<(), Refusal>
    ensures number { answer_number result ≡ join_number run.old other.now }
    ensures run { run.new ≡ join_run run.old other.now }
{
    join_verdicts::join_verdict(run, other)?;
    add_up(run, other);
    Ok(())
}
