// One sum with the grams of one record: a hot part or a cold part, and the carry from its rest.
#![tactic(auto)]

ghost use Rattle.std.specs.Prelude.{◌≡◌, cond, ◌+◌, ◌*◌, ◌≤◌, ◌<◌};
ghost use Rattle.classes.specs.Classes.{has_cold};
ghost use Rattle.coldstart.specs.ColdStart.{cold_factor};
ghost use Rattle.inventory.specs.Adding.{billionths, x_of};
ghost use Rattle.inventory.specs.Order.{in_billionths};
ghost use Rattle.inventory.specs.Limits.{SumLimits, XLimits};

use inventory::Amount;
use units::{Grams, VehicleKm};

// m grams and s billionths, of which one gram may be carried.
#[tactic(auto, using(crate::proofs::Products::plain, crate::proofs::Products::carry))]
fn carried(m: Grams, s: u64) -> Amount
    requires { (m.0 ≤ 10000000000000000) × (s < 2000000000) }
    ensures { result ≡ billionths (m.0 * 1000000000 + s) }
{
    if s < 1000000000 {
        return Amount { grams: m, rest: s };
    }
    Amount {
        grams: Grams(m.0 + 1),
        rest: s - 1000000000,
    }
}

// A sum with the hot grams of one road.
#[tactic(auto, using(crate::proofs::Products::hot_fits))]
pub fn with_hot(sum: Amount, k: VehicleKm, share: u64, e: u64) -> Amount
    requires sum_limits { SumLimits sum }
    requires k_bound { (k.0 ≤ 1000000000) × (share ≤ 100) × (e ≤ 2000000000) }
    ensures { result ≡ billionths (in_billionths sum + k.0 * share * e) }
{
    let a = k.0 * share;
    let low = a % 1000000000 * e;
    let s = sum.rest + low % 1000000000;
    let m = sum.grams.0 + (a / 1000000000 * e + low / 1000000000);
    carried(Grams(m), s)
}

// A sum with the cold grams of one cold factor.
#[tactic(auto, using(crate::proofs::Products::cold_fits))]
pub fn with_cold(sum: Amount, k: VehicleKm, f: u64) -> Amount
    requires sum_limits { SumLimits sum }
    requires k_bound { (k.0 ≤ 1000000000) × (f ≤ 9800000000) }
    ensures { result ≡ billionths (in_billionths sum + k.0 * f * 100) }
{
    let a = k.0 * f;
    let s = sum.rest + a % 10000000 * 100;
    let m = sum.grams.0 + a / 10000000;
    carried(Grams(m), s)
}

// The cold factor of a class and a quantity from E and the values X, 0 for a class without a cold part. Both are numbers as in
// classes: a record may hold any class, and a quantity is a place in a run.
#[tactic(auto, using(classes::proofs::Classes::x_below))]
pub fn cold_rate(class: u64, quantity: usize, e: u64, x: &[u64; 16]) -> u64
    requires { (quantity < 5) × (e ≤ 2000000000) × XLimits x.now }
    ensures { result ≡ cond (has_cold class) (cold_factor e (x_of x.now class quantity)) 0 }
{
    if classes::has_cold(class) {
        return coldstart::cold_factor(e, x[classes::x_place(class, quantity)]);
    }
    0
}
