// A sheet: a head line and record lines, read into a run.
#![tactic(auto)]

ghost use Rattle.std.specs.Prelude.{◌≡◌, true};
ghost use Rattle.units.specs.Refusals.{answer_number};
ghost use Rattle.inventory.specs.Order.{in_order};
ghost use Rattle.inventory.specs.Adding.{with_totals};
ghost use Rattle.lines.specs.Records.{record_of};
ghost use Rattle.sheet.specs.Sheet.{line_number, line_run, read_outcome, sheet_of};

use inventory::Run;
use units::Refusal;

// The first bad line of a sheet: what is wrong with it, and its number from 1.
#[derive(Clone, Copy)]
pub struct BadLine {
    pub reason: Refusal,
    pub line: usize,
}

// Adds the record of a line to a run whose totals are made at the end.
fn add_line(run: &mut Run, line: &[u8]) -> Result<(), Refusal>
    requires { in_order (with_totals run.old) ≡ true }
    ensures number { answer_number result ≡ line_number (with_totals run.old) (record_of line.now) }
    ensures run { with_totals run.new ≡ line_run (with_totals run.old) (record_of line.now) }
    ensures order { in_order (with_totals run.new) ≡ true }
{
    let rec = lines::record_in(line).ok_or(Refusal::LineShape)?;
    recording::add_before_totals(run, rec)
}

// Reads a sheet of any length. A record line has 41 bytes, so no LF is searched for; the run is known to be in order, so that
// is not tested again, and its totals are made once, at the end.
pub fn read_sheet(text: &[u8]) -> Result<Run, BadLine>
    ensures { read_outcome result ≡ sheet_of text.now }
{
    let first = lines::head_line(text).ok_or(BadLine {
        reason: Refusal::LineShape,
        line: 1,
    })?;
    // A match here and an `if let` below: with map_err and `?` the proofs did not find what the closure gives.
    let mut run = match recording::open_run(first.head) {
        Ok(run) => run,
        Err(reason) => return Err(BadLine { reason, line: 1 }),
    };
    for (i, line) in text[first.size..].chunks(41).enumerate() {
        if let Err(reason) = add_line(&mut run, line) {
            return Err(BadLine {
                reason,
                line: i + 2,
            });
        }
    }
    run_totals::make_totals(&mut run, 0, 15);
    Ok(run)
}
