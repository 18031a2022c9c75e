// A head as it crosses from C, Rust and Python: numbers alone, 0 and 0 where there are no dates.
#![tactic(auto)]

ghost use Rattle.std.specs.Prelude.{◌≡◌};
ghost use Rattle.capi_heads.specs.Heads.{head_from};

use inventory::Head;

// A head whose dates, if it has any, are two numbers, each year × 10,000 + month × 100 + day.
#[repr(C)]
#[derive(Clone, Copy)]
pub struct HeadNumbers {
    pub trip: u64,
    pub temps: [i64; 12],
    pub first: u64,
    pub last: u64,
}

impl From<HeadNumbers> for Head {
    ghost from_gives = { λ x y. y ≡ head_from x };

    fn from(h: HeadNumbers) -> Head {
        let temps = h.temps;
        Head {
            trip: h.trip,
            temps,
            period: calendar::period_from(h.first, h.last),
        }
    }
}
