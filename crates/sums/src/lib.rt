// The 60 sums with a record that is taken.
#![tactic(auto)]

ghost use Rattle.std.specs.Prelude.{◌≡◌};
ghost use Rattle.inventory.specs.Limits.{RecordLimits, RunLimits};
ghost use Rattle.sums.specs.Parts.{of_sums, with_sums};

use inventory::{Record, Run};
use units::VehicleKm;

// Raises the 20 sums of a record's fuel by what the record brings.
#[tactic(auto, using(kilometres::proofs::Made::fuel_most, crate::proofs::Slots::factor_most), unfolding(inventory::specs::Records::vehicle_km))]
pub fn add_sums(run: &mut Run, rec: Record)
    requires record_limits { RecordLimits rec }
    requires run_limits { RunLimits (of_sums run.old.x run.old.grams run.old.rests) }
    ensures { run.new ≡ with_sums run.old rec }
{
    run.shaped();
    let fuel = classes::fuel_of(rec.class);
    let shares = rec.shares;
    let k = VehicleKm(rec.vehicles * rec.km);
    let f = book::factors_of(rec.class, rec.speeds);
    // by place: a quantity has three factors and four sums
    for q in 0..5 {
        let b = fuel * 20 + q * 4;
        let urban = f[q * 3];
        let rural = f[q * 3 + 1];
        let highway = f[q * 3 + 2];
        let c = amounts::cold_rate(rec.class, q, urban, &run.x);
        let s0 = amounts::with_hot(run.sum(b), k, shares.urban, urban);
        let s1 = amounts::with_hot(run.sum(b + 1), k, shares.rural, rural);
        let s2 = amounts::with_hot(run.sum(b + 2), k, shares.highway, highway);
        let s3 = amounts::with_cold(run.sum(b + 3), k, c);
        run.set_sum(b, s0);
        run.set_sum(b + 1, s1);
        run.set_sum(b + 2, s2);
        run.set_sum(b + 3, s3);
    }
}
