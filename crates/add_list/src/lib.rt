// A list of records added to a freshly opened run, with the claim of accuracy about it.
#![tactic(auto)]

ghost use Rattle.std.specs.Prelude.{◌≡◌, true};
ghost use Rattle.units.specs.Refusals.{answer_number};
ghost use Rattle.inventory.specs.Order.{in_order};
ghost use Rattle.inventory.specs.Adding.{with_totals};
ghost use Rattle.accuracy.specs.Reference.{reference_of};
ghost use Rattle.accuracy.specs.Claim.{run_after, ListClaim};
ghost use Rattle.add_list.specs.Records.{records_of};
ghost use Rattle.add_list.specs.Answer.{list_number, list_run, list_taken, list_first, first_refused, refused_at, added_run, added_taken, added_first};

use inventory::{Head, Run};
use units::Refusal;

// The first refused record of a list: its place, from 1, and why. A sheet's BadLine counts lines, the head's among them.
#[derive(Clone, Copy)]
pub struct FirstRefused {
    pub place: usize,
    pub reason: Refusal,
}

// What a list gives: the run after its records, how many of them were taken, and the first that was not.
#[derive(Clone, Copy)]
pub struct ListAdded {
    pub run: Run,
    pub taken: u64,
    pub first: Option<FirstRefused>,
}

// Adds the records of a list, nine numbers each, and gives the first that is refused. The run is known to be in order, so that is
// not tested again, and its totals are made once, at the end. A Run crosses from C
// with any numbers, so no type of it carries what this requires.
fn add_all(run: &mut Run, numbers: &[u64]) -> Option<FirstRefused>
    requires { in_order (with_totals run.old) ≡ true }
    ensures run { run.new ≡ run_after (with_totals run.old) (records_of numbers.now) }
    ensures first { refused_at result ≡ first_refused (with_totals run.old) 1 (records_of numbers.now) }
{
    let mut first = None;
    for (i, nine) in numbers.chunks_exact(9).enumerate() {
        let rec = list_records::record_of(nine);
        if let Err(reason) = recording::add_before_totals(run, rec) {
            first = first.or(Some(FirstRefused {
                place: i + 1,
                reason,
            }));
        }
    }
    run_totals::make_totals(run, 0, 15);
    first
}

// Opens a run and adds the lent records, nine numbers each: 10 where they are not whole records, then 1, 2, 19, 20.
pub fn add_list(head: Head, numbers: &[u64]) -> Result<ListAdded, Refusal>
    ensures number { answer_number result ≡ list_number head numbers.now }
    ensures run { added_run result ≡ list_run head numbers.now }
    ensures taken { added_taken result ≡ list_taken head numbers.now }
    ensures first { added_first result ≡ list_first head numbers.now }
    ensures claim { answer_number result ≡ 0 → ListClaim (added_run result) (reference_of head (records_of numbers.now)) }
{
    if numbers.len() % 9 != 0 {
        return Err(Refusal::LineShape);
    }
    let mut run = recording::open_run(head)?;
    let first = add_all(&mut run, numbers);
    let taken = run.count;
    Ok(ListAdded { run, taken, first })
}
