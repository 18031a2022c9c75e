// The Gregorian calendar from 1980 to 2100, periods of a year, and what each month weighs in one.
#![tactic(auto)]

ghost use Rattle.std.specs.Prelude.{◌≡◌, ◌-◌, ◌≤◌, ◌<◌};
ghost use Rattle.units.specs.Lists.{tab};
ghost use Rattle.units.specs.Grounds.{first_fit};
ghost use Rattle.units.specs.Refusals.{answer_number};
ghost use Rattle.calendar.specs.Calendar.{is_leap, month_length, no_day};
ghost use Rattle.calendar.specs.Periods.{period_from, period_grounds, TakenPeriod, days_number, TakenDays, days_in, days_of, month_weight, period_weight};
ghost use Rattle.calendar.specs.Claim.{CalendarClaim};

use units::Refusal;

// A first and a last day, both included, each as year × 10,000 + month × 100 + day.
#[derive(Clone, Copy)]
pub struct Days {
    pub first: u64,
    pub last: u64,
}

// What a head covers: the whole year in twelfths, or the days from one date to another. SPECIFICATION names both cases, and
// `Option<Days>` would leave the first without a name.
#[derive(Clone, Copy)]
pub enum Period {
    Year,
    Days(Days),
}

// What each month weighs, and all of them together.
#[derive(Clone, Copy)]
pub struct Weights {
    pub months: [u64; 12],
    pub whole: u64,
}

// The period of two numbers beside a head: 0 and 0 are no dates, anything else is dated.
#[tactic(auto, unfolding(crate::specs::Periods::period_from))]
pub fn period_from(first: u64, last: u64) -> Period
    ensures { result ≡ period_from first last }
{
    if first == 0 && last == 0 {
        Period::Year
    } else {
        Period::Days(Days { first, last })
    }
}

// Whether a year is a leap year.
#[tactic(auto, unfolding(crate::specs::Calendar::is_leap))]
fn is_leap(year: u64) -> bool
    ensures { result ≡ is_leap year }
{
    year % 4 == 0 && (year % 100 != 0 || year % 400 == 0)
}

// The days of a month, 1 January to 12 December.
#[tactic(auto, using(crate::proofs::Months::leap_second, crate::proofs::Months::plain_second, crate::proofs::Months::other_months))]
fn month_length(year: u64, month: u64) -> u64
    requires { (1 ≤ month) × (month ≤ 12) }
    ensures { result ≡ month_length year month }
{
    if month == 2 {
        return if is_leap(year) { 29 } else { 28 };
    }
    // From August on the even months are the long ones.
    30 + (month + month / 8) % 2
}

// Whether a date is no day from 1980 to 2100.
#[tactic(auto, using(units::proofs::Tests::inside_low, units::proofs::Tests::inside_high), unfolding(crate::specs::Calendar::no_day))]
fn no_day(date: u64) -> bool
    ensures { result ≡ no_day date }
{
    let year = date / 10000;
    let month = date / 100 % 100;
    units::is_outside(1980, 2100, year)
        || units::is_outside(1, 12, month)
        || units::is_outside(1, month_length(year, month), date % 100)
}

// Whether a first and a last day are refused: 19, then 20.
#[tactic(auto, using(crate::proofs::Grounds::no_first, crate::proofs::Grounds::no_last, crate::proofs::Grounds::before_first, crate::proofs::Grounds::other_year, crate::proofs::Grounds::good_days), unfolding(units::specs::Refusals::answer_number, units::specs::Refusals::refusal_number))]
fn days_verdict(d: Days) -> Result<(), Refusal>
    ensures { answer_number result ≡ days_number d }
{
    if no_day(d.first) || no_day(d.last) {
        return Err(Refusal::NoDay);
    }
    if d.last < d.first || d.first / 10000 != d.last / 10000 {
        return Err(Refusal::DayOrder);
    }
    Ok(())
}

// Whether a period is refused: 19, then 20.
#[tactic(auto, using(crate::proofs::Grounds::year_taken), unfolding(units::specs::Refusals::answer_number))]
pub fn period_verdict(period: Period) -> Result<(), Refusal>
    ensures { answer_number result ≡ first_fit (period_grounds period) }
{
    match period {
        Period::Year => Ok(()),
        Period::Days(d) => days_verdict(d),
    }
}

// The days of a period in month k, 0 January to 11 December.
#[tactic(auto, using(crate::proofs::Counts::days_in_lem))]
fn days_in(d: Days, k: usize) -> u64
    requires { k < 12 }
    ensures { result ≡ days_in d k }
{
    let year = d.first / 10000;
    let month = k as u64 + 1;
    let length = month_length(year, month);
    // What is written before the first day of the month.
    let before = year * 10000 + month * 100;
    let reached = length.min(d.last.saturating_sub(before));
    reached.saturating_sub(d.first.saturating_sub(before + 1))
}

// What each month weighs in a taken period: its days in it.
fn day_weights(d: Days) -> Weights
    requires { TakenDays d }
    ensures months { result.months ≡ tab (days_in d) 12 }
    ensures whole { result.whole ≡ days_of d }
{
    let mut months = [0u64; 12];
    let mut whole: u64 = 0;
    for k in 0..12 {
        let days = days_in(d, k);
        months[k] = days;
        whole += days;
    }
    Weights { months, whole }
}

// What each month weighs in a period that opening takes: a twelfth of the year, or its days.
pub fn weights_of(period: Period) -> Weights
    requires { TakenPeriod period }
    ensures months { result.months ≡ tab (month_weight period) 12 }
    ensures whole { result.whole ≡ period_weight period }
{
    match period {
        Period::Year => Weights {
            months: [1; 12],
            whole: 12,
        },
        Period::Days(d) => day_weights(d),
    }
}

// Does nothing: its contract is the laws of the calendar and of the weights.
pub fn calendar_claim()
    ensures { CalendarClaim }
{}
