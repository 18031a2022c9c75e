// CO2, SO2 and lead from the fuel of a run.
#![tactic(auto)]

ghost use Rattle.std.specs.Prelude.{◌≡◌, ◌+◌, ◌*◌, ◌-◌, ◌≤◌, ◌<◌};
ghost use Rattle.units.specs.Grounds.{first_fit};
ghost use Rattle.units.specs.Refusals.{answer_number};
ghost use Rattle.units.specs.Rounding.{half_up};
ghost use Rattle.inventory.specs.Printed.{answered, printed_answer};
ghost use Rattle.balance.specs.Balance.{printed_fuel};
ghost use Rattle.fuel.specs.FromFuel.{content_grounds, co2_of, so2_of, lead_of};

use inventory::Run;
use units::{Grams, Refusal};

// Whether a question for grams from fuel is refused: as one for its FC total, then 15 where the content is over its limit.
fn content_verdict(run: &Run, fuel: u64, limit: u64, content: u64) -> Result<(), Refusal>
    ensures { answer_number result ≡ first_fit (content_grounds run.now fuel limit content) }
{
    totals::question_verdict(run, fuel, 5)?;
    if limit < content {
        return Err(Refusal::FuelContent);
    }
    Ok(())
}

// What CO2, SO2 and lead have in common: (a + b × content) × F / (c + d × content), half up, for a content up to its limit.
#[derive(Clone, Copy)]
struct Formula {
    limit: u64,
    a: u64,
    b: u64,
    c: u64,
    d: u64,
}

impl Formula {
    fn grams(self, run: &Run, fuel: u64, content: u64) -> Result<Grams, Refusal>
        requires { (0 < self.c) × (self.a + self.b * self.limit ≤ 4 * self.c) × (self.c + self.d * self.limit ≤ 20000000) }
        ensures { printed_answer result ≡ answered (first_fit (content_grounds run.now fuel self.limit content)) (half_up ((self.a + self.b * content) * printed_fuel run.now (fuel - 1)) (self.c + self.d * content)) }
    {
        content_verdict(run, fuel, self.limit, content)?;
        let f = printed::total_at(run, fuel as usize - 1, 4);
        Ok(units::scaled(f, self.a + self.b * content, self.c + self.d * content))
    }
}

// CO2, SO2 and lead are a call each, as in C: one formula with its own numbers. The fuel is a number, as in other questions.

// CO2 of a fuel; hydrogen per carbon in thousandths.
pub fn co2(run: &Run, fuel: u64, hydrogen: u64) -> Result<Grams, Refusal>
    ensures { printed_answer result ≡ co2_of run.now fuel hydrogen }
{
    let formula = Formula {
        limit: 4000,
        a: 44011000,
        b: 0,
        c: 12011000,
        d: 1008,
    };
    formula.grams(run, fuel, hydrogen)
}

// SO2 of a fuel; sulphur in ppm by mass.
pub fn so2(run: &Run, fuel: u64, sulphur: u64) -> Result<Grams, Refusal>
    ensures { printed_answer result ≡ so2_of run.now fuel sulphur }
{
    let formula = Formula {
        limit: 10000,
        a: 0,
        b: 2,
        c: 1000000,
        d: 0,
    };
    formula.grams(run, fuel, sulphur)
}

// Lead of a fuel; lead in ppm by mass.
pub fn lead(run: &Run, fuel: u64, content: u64) -> Result<Grams, Refusal>
    ensures { printed_answer result ≡ lead_of run.now fuel content }
{
    let formula = Formula {
        limit: 1000,
        a: 0,
        b: 3,
        c: 4000000,
        d: 0,
    };
    formula.grams(run, fuel, content)
}
