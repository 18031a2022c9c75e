// The answer that crosses to C, Rust and Python where a call gives a run.
#![tactic(auto)]

ghost use Rattle.std.specs.Prelude.{◌≡◌};
ghost use Rattle.units.specs.Refusals.{answer_number};
ghost use Rattle.inventory.specs.Opening.{given_run};
ghost use Rattle.capi_answers.specs.Answers.{run_answer};

use inventory::Run;
use units::Refusal;

// A number, 0 where it is taken, and a run: C has no Result.
#[repr(C)]
#[derive(Clone, Copy)]
pub struct RunAnswer {
    pub number: u64,
    pub run: Run,
}

impl From<Result<Run, Refusal>> for RunAnswer {
    ghost from_gives = { λ x y. y ≡ run_answer (answer_number x) (given_run x) };

    #[tactic(auto, unfolding(units::specs::Refusals::answer_number, inventory::specs::Opening::given_run))]
    fn from(answer: Result<Run, Refusal>) -> RunAnswer {
        match answer {
            Ok(run) => RunAnswer { number: 0, run },
            Err(r) => RunAnswer {
                number: units::refusal_number(r),
                run: recording::zeros(),
            },
        }
    }
}
