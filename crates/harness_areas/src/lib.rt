// What the test programs share about changing areas: a line opens them or adds to one.
#![tactic(auto)]

ghost use Rattle.std.specs.Prelude.{◌≡◌, ◌∷◌, [], OnOk};
ghost use Rattle.std.specs.Io.KnownBytes.{Appends};
ghost use Rattle.units.specs.Refusals.{answer_number};
ghost use Rattle.areas.specs.Calls.{open_areas_number, open_areas_numbers};
ghost use Rattle.harness_prints.specs.Prints.{numbers_text};
ghost use Rattle.harness_records.specs.Records.{head_in};
ghost use Rattle.harness_areas.specs.Adds.{add_times, last_number, added_numbers, added_number};

use harness_lines::{number, word};
use harness_prints::print_numbers;
use inventory::Record;
use std::io;
use std::io::Write;
use units::Refusal;

// Adds the record to an area so many times, and gives what the last add gave; `harness_adds::add_times` says why both stand.
#[tactic(auto, unfolding(crate::specs::Adds::add_times, crate::specs::Adds::last_number, units::specs::Refusals::answer_number))]
fn add_times(numbers: &mut [u64], area: u64, rec: Record, times: u64) -> Result<(), Refusal>
    ensures numbers { numbers.new ≡ add_times times numbers.old area rec }
    ensures number { answer_number result ≡ last_number times numbers.old area rec }
{
    let mut last = Ok(());
    for _i in 0..times {
        last = area_recording::add_area(numbers, area, rec);
    }
    last
}

// The output, the numbers and the line are a program's own, which no struct holds.
//
// `open L T..`: the areas are opened, and the number printed.
pub fn open<W: Write>(out: &mut W, numbers: &mut [u64], line: &[u8]) -> io::Result<()>
    ensures numbers { numbers.new ≡ open_areas_numbers numbers.old (head_in line.now) }
    ensures text { OnOk result (Appends (W.contents out.old) (W.contents out.new) (numbers_text (open_areas_number numbers.old (head_in line.now) ∷ []))) }
{
    let opened = area_opening::open_areas(numbers, harness_records::head_of(line));
    print_numbers(out, &[units::answer_number(&opened)])
}

// `add AREA TIMES CLASS VEHICLES KM SHARES SPEEDS`: the last number is printed.
#[tactic(auto, unfolding(crate::specs::Adds::added_numbers, crate::specs::Adds::added_number))]
pub fn add<W: Write>(out: &mut W, numbers: &mut [u64], line: &[u8]) -> io::Result<()>
    ensures numbers { numbers.new ≡ added_numbers numbers.old line.now }
    ensures text { OnOk result (Appends (W.contents out.old) (W.contents out.new) (numbers_text (added_number numbers.old line.now ∷ []))) }
{
    let rec = harness_records::record_of(word(line, 1));
    let last = add_times(numbers, number(line, 1), rec, number(line, 2));
    print_numbers(out, &[units::answer_number(&last)])
}
