// The calls for C, Rust and Python that make a run of a list or a sheet. Answers are a number and values.
#![tactic(auto)]

ghost use Rattle.std.specs.Prelude.{◌≡◌};
ghost use Rattle.sheet.specs.Sheet.{read_outcome, sheet_of};
ghost use Rattle.capi_heads.specs.Heads.{head_from};
ghost use Rattle.capi_lists.specs.Answers.{list_answer, added_answer, sheet_answer};

use add_list::ListAdded;
use capi_heads::HeadNumbers;
use inventory::{Head, Run};
use sheet::BadLine;
use units::Refusal;

// A number, how many records were taken, the place and number of the first refused one, and a run: C has no Result.
#[repr(C)]
#[derive(Clone, Copy)]
pub struct ListAnswer {
    pub number: u64,
    pub taken: u64,
    pub place: usize,
    pub refused: u64,
    pub run: Run,
}

impl From<Result<ListAdded, Refusal>> for ListAnswer {
    ghost from_gives = { λ x y. y ≡ added_answer x };

    #[tactic(auto, unfolding(units::specs::Refusals::answer_number, add_list::specs::Answer::added_run, add_list::specs::Answer::added_taken, add_list::specs::Answer::added_first))]
    fn from(answer: Result<ListAdded, Refusal>) -> ListAnswer {
        match answer {
            Ok(list) => match list.first {
                Some(first) => ListAnswer {
                    number: 0,
                    taken: list.taken,
                    place: first.place,
                    refused: units::refusal_number(first.reason),
                    run: list.run,
                },
                None => ListAnswer {
                    number: 0,
                    taken: list.taken,
                    place: 0,
                    refused: 0,
                    run: list.run,
                },
            },
            Err(r) => ListAnswer {
                number: units::refusal_number(r),
                taken: 0,
                place: 0,
                refused: 0,
                run: recording::zeros(),
            },
        }
    }
}

// A number and its line, both 0 where the sheet is taken, and a run: C has no Result.
#[repr(C)]
#[derive(Clone, Copy)]
pub struct SheetAnswer {
    pub number: u64,
    pub line: usize,
    pub run: Run,
}

impl From<Result<Run, BadLine>> for SheetAnswer {
    ghost from_gives = { λ x y. y ≡ sheet_answer (read_outcome x) };

    fn from(answer: Result<Run, BadLine>) -> SheetAnswer {
        match answer {
            Ok(run) => SheetAnswer {
                number: 0,
                line: 0,
                run,
            },
            Err(bad) => SheetAnswer {
                number: units::refusal_number(bad.reason),
                line: bad.line,
                run: recording::zeros(),
            },
        }
    }
}

#[unsafe(no_mangle)]
pub extern "C" fn haldurap_add_list(head: HeadNumbers, numbers: &[u64]) -> ListAnswer
    ensures { result ≡ list_answer (head_from head) numbers.now }
{
    ListAnswer::from(add_list::add_list(Head::from(head), numbers))
}

#[unsafe(no_mangle)]
pub extern "C" fn haldurap_sheet(text: &[u8]) -> SheetAnswer
    ensures { result ≡ sheet_answer (sheet_of text.now) }
{
    SheetAnswer::from(sheet::read_sheet(text))
}
