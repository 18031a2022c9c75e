// The call for C, Rust and Python that joins two runs. Structs by value, the answer as a number and a run.
#![tactic(auto)]

ghost use Rattle.std.specs.Prelude.{◌≡◌};
ghost use Rattle.joins.specs.Joining.{join_number, join_run};
ghost use Rattle.capi_answers.specs.Answers.{run_answer};

use capi_answers::RunAnswer;
use inventory::Run;

#[unsafe(no_mangle)]
pub extern "C" fn haldurap_join(first: Run, second: Run) -> RunAnswer
    ensures { result ≡ run_answer (join_number first second) (join_run first second) }
{
    let mut run = first;
    let number = units::answer_number(&joining::join(&mut run, &second));
    RunAnswer { number, run }
}
