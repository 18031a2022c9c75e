// The calls for C, Rust and Python over areas, which the caller lends: its struct of sixteen runs and the common use is 2,737
// numbers. Answers are a number and values.
#![tactic(auto)]

ghost use Rattle.std.specs.Prelude.{◌≡◌};
ghost use Rattle.areas.specs.Calls.{open_areas_number, open_areas_numbers, add_area_number, add_area_numbers, area_run_number, area_run};
ghost use Rattle.capi_heads.specs.Heads.{head_from};
ghost use Rattle.capi_answers.specs.Answers.{run_answer};

use capi_answers::RunAnswer;
use capi_heads::HeadNumbers;
use inventory::{Head, Record};

#[unsafe(no_mangle)]
pub extern "C" fn haldurap_open_areas(numbers: &mut [u64], head: HeadNumbers) -> u64
    ensures number { result ≡ open_areas_number numbers.old (head_from head) }
    ensures numbers { numbers.new ≡ open_areas_numbers numbers.old (head_from head) }
{
    units::answer_number(&area_opening::open_areas(numbers, Head::from(head)))
}

#[unsafe(no_mangle)]
pub extern "C" fn haldurap_add_area(numbers: &mut [u64], area: u64, rec: Record) -> u64
    ensures number { result ≡ add_area_number numbers.old area rec }
    ensures numbers { numbers.new ≡ add_area_numbers numbers.old area rec }
{
    units::answer_number(&area_recording::add_area(numbers, area, rec))
}

#[unsafe(no_mangle)]
pub extern "C" fn haldurap_area_run(numbers: &[u64], area: u64) -> RunAnswer
    ensures { result ≡ run_answer (area_run_number numbers.now area) (area_run numbers.now area) }
{
    RunAnswer::from(area_recording::area_run(numbers, area))
}
