// Cold starts: the cold share of the distance, the ratio cold to hot, and the cold factor.
#![tactic(auto)]

ghost use Rattle.std.specs.Prelude.{◌≡◌, true, ◌≤◌, nat_abs};
ghost use Rattle.coldstart.specs.ColdStart.{cold_excess, cold_factor, cold_share, SlopeLimits, slope, temperature_ok, x_most};
ghost use Rattle.coldstart.specs.Claim.{ShareClaim};

// Whether a temperature is from -300 to 400 tenths of a degree.
#[tactic(auto, unfolding(crate::specs::ColdStart::temperature_ok))]
pub fn temperature_ok(t: i64) -> bool
    ensures { result ≡ temperature_ok t }
{
    (-300..=400).contains(&t)
}

// B: the cold share of the distance.
pub fn cold_share(l: u64, t: i64) -> u64
    requires { (10 ≤ l) × (l ≤ 200) × (temperature_ok t ≡ true) }
    ensures { result ≡ nat_abs (cold_share l t) }
{
    let base = 64700000 - 250000 * l;
    let fall = 97400 - 385 * l;
    (base as i64 - fall as i64 * t) as u64
}

// Q: the ratio less 10,000, or 0 if that is negative.
pub fn cold_excess(p: u64, q: u64, t: i64) -> u64
    requires { SlopeLimits (slope p q) × (temperature_ok t ≡ true) }
    ensures { result ≡ cold_excess (slope p q) t }
{
    let x = p as i64 - q as i64 * t - 10000;
    x.max(0) as u64
}

// The cold factor of E and X.
pub fn cold_factor(e: u64, x: u64) -> u64
    requires { (e ≤ 2000000000) × (x ≤ x_most) }
    ensures { result ≡ cold_factor e x }
{
    (e * x + 500000000) / 1000000000
}

// Does nothing: its contract is the range of B and of X, for every head that opening takes.
pub fn share_claim()
    ensures { ShareClaim }
{}
