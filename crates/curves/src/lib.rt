// Values of curves of the second degree over signed coefficients; the rows are lent.
#![tactic(auto)]

ghost use Rattle.std.specs.Prelude.{◌≡◌, [], ◌∷◌, nat_abs};
ghost use Rattle.units.specs.Lists.{tab};
ghost use Rattle.curves.specs.Curves.{Small, SmallRows, quadratic, value_at};

use units::{Speed, Speeds};

// (aV + b)V + c, which is aV² + bV + c.
fn value_at(a: i64, b: i64, c: i64, v: Speed) -> u64
    requires { Small a b c v.0 }
    ensures { result ≡ nat_abs (quadratic (a ∷ b ∷ c ∷ []) v.0) }
{
    let s = v.0 as i64;
    ((a * s + b) * s + c) as u64
}

// The 15 values of five curves: each road at its own speed.
pub fn values_of(t: &[[i64; 3]; 5], speeds: Speeds) -> [u64; 15]
    requires { SmallRows t.now speeds.urban.0 × SmallRows t.now speeds.rural.0 × SmallRows t.now speeds.highway.0 }
    ensures { result ≡ tab (value_at t.now speeds.urban.0 speeds.rural.0 speeds.highway.0) 15 }
{
    let mut f = [0u64; 15];
    for (q, [a, b, c]) in t.iter().enumerate() {
        f[q * 3] = value_at(*a, *b, *c, speeds.urban);
        f[q * 3 + 1] = value_at(*a, *b, *c, speeds.rural);
        f[q * 3 + 2] = value_at(*a, *b, *c, speeds.highway);
    }
    f
}
