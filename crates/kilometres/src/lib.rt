// The kilometres of each fuel with a record that is taken.
#![tactic(auto)]

ghost use Rattle.std.specs.Prelude.{◌≡◌};
ghost use Rattle.inventory.specs.Limits.{RecordLimits, RunLimits};
ghost use Rattle.kilometres.specs.Parts.{of_km, with_km};

use inventory::{Record, Run};
use units::VehicleKm;

// Raises the kilometres of a record's fuel by the record's. A Record crosses from C with any numbers, so no type of it carries
// `RecordLimits`; who calls this has tested them.
#[tactic(auto, using(crate::proofs::Made::fuel_most), unfolding(inventory::specs::Records::vehicle_km))]
pub fn add_km(run: &mut Run, rec: Record)
    requires record_limits { RecordLimits rec }
    requires run_limits { RunLimits (of_km run.old.km) }
    ensures { run.new ≡ with_km run.old rec }
{
    let fuel = classes::fuel_of(rec.class);
    run.km[fuel] = VehicleKm(run.km[fuel].0 + rec.vehicles * rec.km);
}
