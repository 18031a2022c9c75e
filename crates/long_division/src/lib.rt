// A long division that ends at the remainder 0, and the digits it worked.
#![tactic(auto)]

ghost use Rattle.std.specs.Prelude.{◌≡◌, ◌*◌, ◌-◌, ◌/◌, ◌^◌, ◌≤◌, ◌<◌};
ghost use Rattle.long_division.specs.Digits.{division_of, ratio_of, SmallRatio};
ghost use Rattle.long_division.specs.Claim.{DigitsClaim};

use units::Grams;

// Where a division has ended: S × 10^digits over F.
#[derive(Clone, Copy)]
struct Division {
    quotient: u64,
    remainder: u64,
    digits: u64,
}

// S × 10^12 / F, half up, and the digits worked.
#[derive(Clone, Copy)]
pub struct Ratio {
    pub k: u64,
    pub digits: u64,
}

// How often f goes into t: a comparison tells 0 sooner than a division does, and the first digits of a small ratio are 0.
fn times_in(t: u64, f: Grams) -> u64
    requires { 0 < f.0 }
    ensures { result ≡ t / f.0 }
{
    if t < f.0 { 0 } else { t / f.0 }
}

// S over F, then one digit at a time through the twelve noughts, ending as soon as the remainder is 0.
fn divided(s: u64, f: Grams) -> Division
    requires { SmallRatio s f.0 }
    ensures { result ≡ division_of s f.0 }
{
    let mut q = times_in(s, f);
    let mut r = s - q * f.0;
    for n in 0..12 {
        if r == 0 {
            return Division {
                quotient: q,
                remainder: r,
                digits: n,
            };
        }
        let t = r * 10;
        let d = times_in(t, f);
        q = q * 10 + d;
        r = t - d * f.0;
    }
    Division {
        quotient: q,
        remainder: r,
        digits: 12,
    }
}

// A quotient of so many digits, filled up with noughts to twelve.
fn filled(q: u64, digits: u64) -> u64
    requires { (digits ≤ 12) × (q * 10 ^ (12 - digits) ≤ 1500001) }
    ensures { result ≡ q * 10 ^ (12 - digits) }
{
    let mut k = q;
    for _nought in digits..12 {
        k *= 10;
    }
    k
}

// S × 10^12 over F, half up, and the digits worked.
pub fn ratio_of(s: u64, f: Grams) -> Ratio
    requires { SmallRatio s f.0 }
    ensures { result ≡ ratio_of s f.0 }
{
    let d = divided(s, f);
    let q = filled(d.quotient, d.digits);
    let f = f.0;
    Ratio {
        k: units::nearest_of(q, d.remainder, f),
        digits: d.digits,
    }
}

// Does nothing: its contract is that the digits worked are the number that SPECIFICATION, "Balance", describes.
pub fn digits_claim()
    ensures { DigitsClaim }
{}
