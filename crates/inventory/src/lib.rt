// Heads, records and runs. Their meaning stands in specs/, what is used of it in proofs/; the code is in the crates above.
#![tactic(auto)]

ghost use Rattle.std.specs.Prelude.{◌≡◌, ◌<◌};
ghost use Rattle.inventory.specs.Limits.{Shaped};
ghost use Rattle.inventory.specs.Amounts.{sum_amount, total_amount, with_sum, with_total};

mod numbers;

use calendar::Period;
pub use numbers::RunNumbers;
pub use units::Speeds;
use units::{Grams, VehicleKm};

// A head: the mean trip length in tenths of km, twelve monthly mean temperatures in tenths of a degree Celsius, and what it
// covers: the whole year, or the days from one date to another.
#[derive(Clone, Copy)]
pub struct Head {
    pub trip: u64,
    pub temps: [i64; 12],
    pub period: Period,
}

// The percent of the distance on each road. Speeds are of the same roads, but in km/h: another type.
#[repr(C)]
#[derive(Clone, Copy)]
pub struct Shares {
    pub urban: u64,
    pub rural: u64,
    pub highway: u64,
}

// A record: class, number of vehicles, km per vehicle, shares and speeds. The class is a number, for callers hand over any; one
// that is none is refused with 3.
#[repr(C)]
#[derive(Clone, Copy)]
pub struct Record {
    pub class: u64,
    pub vehicles: u64,
    pub km: u64,
    pub shares: Shares,
    pub speeds: Speeds,
}

// Whole grams, and a rest in billionths of a gram.
#[repr(C)]
#[derive(Clone, Copy)]
pub struct Amount {
    pub grams: Grams,
    pub rest: u64,
}

// A run: the head's trip length and values X (fuel × 5 + quantity, then CO of class 3), the record count, the kilometres
// of each fuel, 60 sums (fuel × 20 + quantity × 4 + kind) as whole grams and a rest in billionths, and the exact total of each
// fuel and quantity (fuel × 5 + quantity) in the same way. Flat arrays, as C has them; each place below is one comparison.
#[repr(C)]
#[derive(Clone, Copy)]
pub struct Run {
    pub trip: u64,
    pub x: [u64; 16],
    pub count: u64,
    pub km: [VehicleKm; 3],
    pub grams: [Grams; 60],
    pub rests: [u64; 60],
    pub total_grams: [Grams; 15],
    pub total_rests: [u64; 15],
}

impl Run {
    // The sum at a place.
    pub fn sum(&self, j: usize) -> Amount
        requires { j < 60 }
        ensures { result ≡ sum_amount self.now j }
    {
        Amount {
            grams: self.grams[j],
            rest: self.rests[j],
        }
    }

    // The stored total at a place.
    pub fn total(&self, k: usize) -> Amount
        requires { k < 15 }
        ensures { result ≡ total_amount self.now k }
    {
        Amount {
            grams: self.total_grams[k],
            rest: self.total_rests[k],
        }
    }

    // Stores a sum at a place.
    pub fn set_sum(&mut self, j: usize, to: Amount)
        requires { j < 60 }
        ensures { self.new ≡ with_sum self.old j to }
    {
        self.grams[j] = to.grams;
        self.rests[j] = to.rest;
    }

    // Stores a total at a place.
    pub fn set_total(&mut self, k: usize, to: Amount)
        requires { k < 15 }
        ensures { self.new ≡ with_total self.old k to }
    {
        self.total_grams[k] = to.grams;
        self.total_rests[k] = to.rest;
    }

    // Does nothing: its contract is that the arrays of every run have their lengths.
    pub fn shaped(&self)
        ensures { Shaped self.now }
    {
        let _x = self.x;
        let _km = self.km;
        let _grams = self.grams;
        let _rests = self.rests;
        let _total_grams = self.total_grams;
        let _total_rests = self.total_rests;
    }
}

// The four kinds of a sum.
#[derive(Clone, Copy)]
pub enum Kind {
    Urban,
    Rural,
    Highway,
    Cold,
}
