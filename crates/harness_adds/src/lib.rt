// What the test programs share about changing a run: a line opens it, adds to it or sets a number of it by hand.
#![tactic(auto)]

ghost use Rattle.std.specs.Prelude.{◌≡◌, ◌∷◌, [], OnOk};
ghost use Rattle.std.specs.Io.KnownBytes.{Appends};
ghost use Rattle.units.specs.Refusals.{answer_number};
ghost use Rattle.inventory.specs.Opening.{given_run, open_number, open_run};
ghost use Rattle.harness_lines.specs.Lines.{number_in};
ghost use Rattle.harness_prints.specs.Prints.{numbers_text};
ghost use Rattle.harness_records.specs.Records.{head_in};
ghost use Rattle.harness_runs.specs.Runs.{set_field};
ghost use Rattle.harness_adds.specs.Adds.{add_times, last_number, added_run, added_number};

use harness_lines::number;
use harness_prints::print_numbers;
use inventory::{Record, Run};
use std::io;
use std::io::Write;
use units::Refusal;

// The run of an answer, that of zeros where it is refused.
#[tactic(auto, unfolding(inventory::specs::Opening::given_run))]
pub fn given(answer: Result<Run, Refusal>) -> Run
    ensures { result ≡ given_run answer }
{
    answer.unwrap_or(recording::zeros())
}

// Adds the record so many times, and gives what the last add gave. `harness_areas::add_times` is its twin: one function for both
// would take the add as a closure, and its contract would speak of a chain of states where these two name their runs.
#[tactic(auto, unfolding(crate::specs::Adds::add_times, crate::specs::Adds::last_number, units::specs::Refusals::answer_number))]
pub fn add_times(run: &mut Run, rec: Record, times: u64) -> Result<(), Refusal>
    ensures run { run.new ≡ add_times times run.old rec }
    ensures number { answer_number result ≡ last_number times run.old rec }
{
    let mut last = Ok(());
    for _i in 0..times {
        last = recording::add(run, rec);
    }
    last
}

// The functions below take the output, the run and the line: each program has a state of its own, so no struct holds them.
//
// `open L T..`: the run is opened, and the number printed.
pub fn open<W: Write>(out: &mut W, run: &mut Run, line: &[u8]) -> io::Result<()>
    ensures run { run.new ≡ open_run (head_in line.now) }
    ensures text { OnOk result (Appends (W.contents out.old) (W.contents out.new) (numbers_text (open_number (head_in line.now) ∷ []))) }
{
    let opened = recording::open_run(harness_records::head_of(line));
    let number = units::answer_number(&opened);
    *run = given(opened);
    print_numbers(out, &[number])
}

// `add TIMES CLASS VEHICLES KM SHARES SPEEDS`: the last number and the count are printed.
#[tactic(auto, unfolding(crate::specs::Adds::added_run, crate::specs::Adds::added_number))]
pub fn add<W: Write>(out: &mut W, run: &mut Run, line: &[u8]) -> io::Result<()>
    ensures run { run.new ≡ added_run run.old line.now }
    ensures text { OnOk result (Appends (W.contents out.old) (W.contents out.new) (numbers_text (added_number run.old line.now ∷ run.new.count ∷ []))) }
{
    let last = add_times(run, harness_records::record_of(line), number(line, 1));
    print_numbers(out, &[units::answer_number(&last), run.count])
}

// `set FIELD INDEX VALUE`: one number is set by hand.
pub fn set(run: &mut Run, line: &[u8])
    ensures { run.new ≡ set_field run.old (number_in line.now 1) (number_in line.now 2) (number_in line.now 3) }
{
    harness_runs::set_field(run, number(line, 1), number(line, 2), number(line, 3));
}
