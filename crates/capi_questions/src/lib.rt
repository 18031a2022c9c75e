// The calls for C, Rust and Python that give grams: totals, kinds, balances, CO2, SO2 and lead. An answer is a number and values.
// C has no Result and no Kind: so an answer is a number beside values, made by cases; each kind has a call of its own; and a
// question's run, fuel, quantity and content come one by one.
#![tactic(auto)]

ghost use Rattle.std.specs.Prelude.{◌≡◌};
ghost use Rattle.inventory.specs.declared.Kind.{Kind};
ghost use Rattle.inventory.specs.Printed.{printed_answer, total_of, kind_of};
ghost use Rattle.balance.specs.Balance.{balanced_answer, balance_of};
ghost use Rattle.fuel.specs.FromFuel.{co2_of, so2_of, lead_of};
ghost use Rattle.capi_questions.specs.Answers.{grams_answer, balance_answer};

use balance::BalanceFigures;
use inventory::{Kind, Run};
use units::{Grams, Refusal};

// A number, 0 where it is given, and grams.
#[repr(C)]
#[derive(Clone, Copy)]
pub struct GramsAnswer {
    pub number: u64,
    pub grams: Grams,
}

impl From<Result<Grams, Refusal>> for GramsAnswer {
    ghost from_gives = { λ x y. y ≡ grams_answer (printed_answer x) };

    #[tactic(auto, unfolding(inventory::specs::Printed::printed_answer))]
    fn from(answer: Result<Grams, Refusal>) -> GramsAnswer {
        match answer {
            Ok(grams) => GramsAnswer { number: 0, grams },
            Err(r) => GramsAnswer {
                number: units::refusal_number(r),
                grams: Grams(0),
            },
        }
    }
}

// A number, 0 where it is given, the balance factor in millionths, the digits worked for it, and the balanced total.
#[repr(C)]
#[derive(Clone, Copy)]
pub struct BalanceAnswer {
    pub number: u64,
    pub k: u64,
    pub digits: u64,
    pub grams: Grams,
}

impl From<Result<BalanceFigures, Refusal>> for BalanceAnswer {
    ghost from_gives = { λ x y. y ≡ balance_answer (balanced_answer x) };

    #[tactic(auto, unfolding(balance::specs::Balance::balanced_answer))]
    fn from(answer: Result<BalanceFigures, Refusal>) -> BalanceAnswer {
        match answer {
            Ok(b) => BalanceAnswer {
                number: 0,
                k: b.k,
                digits: b.digits,
                grams: b.grams,
            },
            Err(r) => BalanceAnswer {
                number: units::refusal_number(r),
                k: 0,
                digits: 0,
                grams: Grams(0),
            },
        }
    }
}

#[unsafe(no_mangle)]
pub extern "C" fn haldurap_total(run: Run, fuel: u64, quantity: u64) -> GramsAnswer
    ensures { result ≡ grams_answer (total_of run fuel quantity) }
{
    GramsAnswer::from(totals::total(&run, fuel, quantity))
}

#[unsafe(no_mangle)]
pub extern "C" fn haldurap_urban(run: Run, fuel: u64, quantity: u64) -> GramsAnswer
    ensures { result ≡ grams_answer (kind_of run fuel quantity Kind.Urban) }
{
    GramsAnswer::from(totals::kind_total(&run, fuel, quantity, Kind::Urban))
}

#[unsafe(no_mangle)]
pub extern "C" fn haldurap_rural(run: Run, fuel: u64, quantity: u64) -> GramsAnswer
    ensures { result ≡ grams_answer (kind_of run fuel quantity Kind.Rural) }
{
    GramsAnswer::from(totals::kind_total(&run, fuel, quantity, Kind::Rural))
}

#[unsafe(no_mangle)]
pub extern "C" fn haldurap_highway(run: Run, fuel: u64, quantity: u64) -> GramsAnswer
    ensures { result ≡ grams_answer (kind_of run fuel quantity Kind.Highway) }
{
    GramsAnswer::from(totals::kind_total(&run, fuel, quantity, Kind::Highway))
}

#[unsafe(no_mangle)]
pub extern "C" fn haldurap_cold(run: Run, fuel: u64, quantity: u64) -> GramsAnswer
    ensures { result ≡ grams_answer (kind_of run fuel quantity Kind.Cold) }
{
    GramsAnswer::from(totals::kind_total(&run, fuel, quantity, Kind::Cold))
}

#[unsafe(no_mangle)]
pub extern "C" fn haldurap_balance(run: Run, fuel: u64, quantity: u64, sold: u64) -> BalanceAnswer
    ensures { result ≡ balance_answer (balance_of run fuel quantity sold) }
{
    BalanceAnswer::from(balance::balance(&run, fuel, quantity, sold))
}

#[unsafe(no_mangle)]
pub extern "C" fn haldurap_co2(run: Run, fuel: u64, hydrogen: u64) -> GramsAnswer
    ensures { result ≡ grams_answer (co2_of run fuel hydrogen) }
{
    GramsAnswer::from(fuel::co2(&run, fuel, hydrogen))
}

#[unsafe(no_mangle)]
pub extern "C" fn haldurap_so2(run: Run, fuel: u64, sulphur: u64) -> GramsAnswer
    ensures { result ≡ grams_answer (so2_of run fuel sulphur) }
{
    GramsAnswer::from(fuel::so2(&run, fuel, sulphur))
}

#[unsafe(no_mangle)]
pub extern "C" fn haldurap_lead(run: Run, fuel: u64, content: u64) -> GramsAnswer
    ensures { result ≡ grams_answer (lead_of run fuel content) }
{
    GramsAnswer::from(fuel::lead(&run, fuel, content))
}
