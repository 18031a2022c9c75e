// The room of an area: whether it takes a record, and the common use after one.
#![tactic(auto)]

ghost use Rattle.std.specs.Prelude.{◌≡◌, ◌≤◌};
ghost use Rattle.units.specs.Grounds.{first_fit};
ghost use Rattle.units.specs.Refusals.{answer_number};
ghost use Rattle.areas.specs.Areas.{area_grounds, common_after};

use inventory::Record;
use units::Refusal;

// Whether a record is refused in an area with so many records, at this common use: 3 to 8, then 18.
pub fn area_verdict(count: u64, common: u64, rec: &Record) -> Result<(), Refusal>
    ensures { answer_number result ≡ first_fit (area_grounds count common rec.now) }
{
    verdicts::record_verdict(rec)?;
    if 300 <= count && 200 <= common {
        return Err(Refusal::FullArea);
    }
    Ok(())
}

// The common use after a record in an area with so many records.
pub fn common_after(count: u64, common: u64) -> u64
    requires { common ≤ 200 }
    ensures { result ≡ common_after count common }
{
    if count < 300 {
        return common;
    }
    common + 1
}
