// One record of a list of numbers, nine a record.
#![tactic(auto)]

ghost use Rattle.std.specs.Prelude.{◌≡◌, length};
ghost use Rattle.list_records.specs.Record.{record_at};

use inventory::{Record, Shares};
use units::{Speed, Speeds};

// The record of its nine numbers.
#[tactic(auto, unfolding(crate::specs::Record::record_at))]
pub fn record_of(numbers: &[u64]) -> Record
    requires { length numbers.now ≡ 9 }
    ensures { result ≡ record_at numbers.now 0 }
{
    Record {
        class: numbers[0],
        vehicles: numbers[1],
        km: numbers[2],
        shares: Shares {
            urban: numbers[3],
            rural: numbers[4],
            highway: numbers[5],
        },
        speeds: Speeds {
            urban: Speed(numbers[6]),
            rural: Speed(numbers[7]),
            highway: Speed(numbers[8]),
        },
    }
}
