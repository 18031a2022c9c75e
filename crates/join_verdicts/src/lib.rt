// Whether two runs are joined.
#![tactic(auto)]

ghost use Rattle.std.specs.Prelude.{◌≡◌};
ghost use Rattle.units.specs.Refusals.{answer_number};
ghost use Rattle.joins.specs.Joining.{join_number};

use inventory::Run;
use units::Refusal;

// Whether a join is refused: 16 of either run, then 21, then 22.
#[tactic(auto, using(inventory::proofs::Order::count_of, joins::proofs::Laws::first_unordered, joins::proofs::Laws::second_unordered, joins::proofs::Laws::heads_differ_lem, joins::proofs::Laws::too_many, joins::proofs::Laws::good_join), unfolding(units::specs::Refusals::answer_number, units::specs::Refusals::refusal_number))]
pub fn join_verdict(a: &Run, b: &Run) -> Result<(), Refusal>
    ensures { answer_number result ≡ join_number a.now b.now }
{
    if !order::in_order(a) || !order::in_order(b) {
        return Err(Refusal::RunOrder);
    }
    if !order::same_head(a, b) {
        return Err(Refusal::HeadsDiffer);
    }
    if 5000 < a.count + b.count {
        return Err(Refusal::FullTogether);
    }
    Ok(())
}
