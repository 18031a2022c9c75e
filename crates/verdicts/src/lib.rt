// Whether a head or a record is refused, and by which number.
#![tactic(auto)]

ghost use Rattle.std.specs.Prelude.{◌≡◌};
ghost use Rattle.units.specs.Lists.{all_below};
ghost use Rattle.units.specs.Grounds.{first_fit};
ghost use Rattle.units.specs.Refusals.{answer_number};
ghost use Rattle.inventory.specs.Records.{head_grounds, month_ok, record_grounds, shares_wrong, speeds_wrong};

use inventory::{Head, Record};
use units::Refusal;

// Whether every temperature of a head is in range.
fn temperatures_ok(head: &Head) -> bool
    ensures { result ≡ all_below (month_ok head.now) 12 }
{
    for t in &head.temps {
        if !coldstart::temperature_ok(*t) {
            return false;
        }
    }
    true
}

// Whether a head is refused: 1, then 2, then by its period.
#[tactic(auto, using(crate::proofs::Verdicts::bad_trip, crate::proofs::Verdicts::bad_temperature, crate::proofs::Verdicts::by_period), unfolding(units::specs::Refusals::answer_number, units::specs::Refusals::refusal_number))]
pub fn head_verdict(head: &Head) -> Result<(), Refusal>
    ensures { answer_number result ≡ first_fit (head_grounds head.now) }
{
    if units::is_outside(10, 200, head.trip) {
        return Err(Refusal::TripLength);
    }
    if !temperatures_ok(head) {
        return Err(Refusal::Temperature);
    }
    calendar::period_verdict(head.period)
}

// Whether a share is over 100, or the sum is not 100.
#[tactic(auto, unfolding(inventory::specs::Records::shares_wrong))]
fn shares_wrong(rec: &Record) -> bool
    ensures { result ≡ shares_wrong rec.now }
{
    let shares = rec.shares;
    shares.urban > 100
        || shares.rural > 100
        || shares.highway > 100
        || shares.urban + shares.rural + shares.highway != 100
}

// Whether a speed is out of range, also where its share is 0.
#[tactic(auto, unfolding(inventory::specs::Records::speeds_wrong))]
fn speeds_wrong(rec: &Record) -> bool
    ensures { result ≡ speeds_wrong rec.now }
{
    let speeds = rec.speeds;
    units::is_outside(10, 130, speeds.urban.0)
        || units::is_outside(10, 130, speeds.rural.0)
        || units::is_outside(10, 130, speeds.highway.0)
}

// Whether a record is refused by itself: 3 to 8.
#[tactic(auto, using(crate::proofs::Verdicts::bad_class, crate::proofs::Verdicts::bad_vehicles, crate::proofs::Verdicts::bad_km, crate::proofs::Verdicts::bad_distance, crate::proofs::Verdicts::bad_shares, crate::proofs::Verdicts::bad_speeds, crate::proofs::Verdicts::good_record, crate::proofs::Verdicts::distance_fits), unfolding(units::specs::Refusals::answer_number, units::specs::Refusals::refusal_number))]
pub fn record_verdict(rec: &Record) -> Result<(), Refusal>
    ensures { answer_number result ≡ first_fit (record_grounds rec.now) }
{
    if units::is_outside(1, 7, rec.class) {
        return Err(Refusal::Class);
    }
    if units::is_outside(1, 1000000, rec.vehicles) {
        return Err(Refusal::Vehicles);
    }
    if units::is_outside(1, 999999, rec.km) {
        return Err(Refusal::Kilometres);
    }
    if 1000000000 < rec.vehicles * rec.km {
        return Err(Refusal::Distance);
    }
    if shares_wrong(rec) {
        return Err(Refusal::Shares);
    }
    if speeds_wrong(rec) {
        return Err(Refusal::RoadSpeed);
    }
    Ok(())
}
