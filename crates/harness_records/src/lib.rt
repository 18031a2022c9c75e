// What the test programs share about a line of standard input that holds a head or a record.
#![tactic(auto)]

ghost use Rattle.std.specs.Prelude.{◌≡◌};
ghost use Rattle.units.specs.Lists.{tab};
ghost use Rattle.harness_records.specs.Records.{temperature_in, head_in, record_in};

use harness_lines::{number, signed};
use inventory::{Head, Record, Shares};
use std::array;
use units::{Speed, Speeds};

// The twelve temperatures of a line.
fn temperatures(line: &[u8]) -> [i64; 12]
    ensures { result ≡ tab (temperature_in line.now) 12 }
{
    array::from_fn(|k| signed(line, k as u64 + 2))
}

// The head of a line: the trip length, twelve temperatures, and the first and the last day, 0 and 0 without dates.
#[tactic(auto, unfolding(crate::specs::Records::head_in))]
pub fn head_of(line: &[u8]) -> Head
    ensures { result ≡ head_in line.now }
{
    Head {
        trip: number(line, 1),
        temps: temperatures(line),
        period: calendar::period_from(number(line, 14), number(line, 15)),
    }
}

// The record of a line, behind the number of times.
#[tactic(auto, unfolding(crate::specs::Records::record_in))]
pub fn record_of(line: &[u8]) -> Record
    ensures { result ≡ record_in line.now }
{
    Record {
        class: number(line, 2),
        vehicles: number(line, 3),
        km: number(line, 4),
        shares: Shares {
            urban: number(line, 5),
            rural: number(line, 6),
            highway: number(line, 7),
        },
        speeds: Speeds {
            urban: Speed(number(line, 8)),
            rural: Speed(number(line, 9)),
            highway: Speed(number(line, 10)),
        },
    }
}
