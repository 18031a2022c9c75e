// The calls for C, Rust and Python over runs: opening, adding, order. Structs by value, answers as a number and values.
#![tactic(auto)]

ghost use Rattle.std.specs.Prelude.{◌≡◌};
ghost use Rattle.inventory.specs.Order.{in_order};
ghost use Rattle.inventory.specs.Opening.{open_number, open_run};
ghost use Rattle.inventory.specs.Adding.{add_number, add_run};
ghost use Rattle.capi_heads.specs.Heads.{head_from};
ghost use Rattle.capi_answers.specs.Answers.{run_answer};
ghost use Rattle.capi_runs.specs.Answers.{order_answer, layout_of};

use capi_answers::RunAnswer;
use capi_heads::HeadNumbers;
use inventory::{Head, Record, Run};

// The version of the structs' layout, and the size of a run in bytes.
#[repr(C)]
#[derive(Clone, Copy)]
pub struct Layout {
    pub version: u64,
    pub size: u64,
}

#[unsafe(no_mangle)]
pub extern "C" fn haldurap_layout() -> Layout
    ensures { result ≡ layout_of }
{
    Layout {
        version: 7,
        size: 1368,
    }
}

#[unsafe(no_mangle)]
pub extern "C" fn haldurap_open(head: HeadNumbers) -> RunAnswer
    ensures { result ≡ run_answer (open_number (head_from head)) (open_run (head_from head)) }
{
    RunAnswer::from(recording::open_run(Head::from(head)))
}

#[unsafe(no_mangle)]
pub extern "C" fn haldurap_add(run: Run, rec: Record) -> RunAnswer
    ensures { result ≡ run_answer (add_number run rec) (add_run run rec) }
{
    let mut after = run;
    let number = units::answer_number(&recording::add(&mut after, rec));
    RunAnswer { number, run: after }
}

#[unsafe(no_mangle)]
pub extern "C" fn haldurap_in_order(run: Run) -> u64
    ensures { result ≡ order_answer (in_order run) }
{
    order::in_order(&run) as u64
}
