// The map's rows of four floats, and one figure.
#![tactic(auto)]

ghost use Rattle.std.specs.Prelude.{◌≡◌, ◌<◌, ◌^◌, true};
ghost use Rattle.inventory.specs.Order.{in_order};
ghost use Rattle.inventory.specs.Printed.{kind_place, printed_kind};
ghost use Rattle.map.specs.Floats.{Exactly, AllExact};
ghost use Rattle.map.specs.Claim.{FigureClaim};
ghost use Rattle.map.specs.Map.{row_answer, row_of, row_whole, figure_answer, figure_of, figure_whole, field_of, not_given};

use inventory::{Kind, Run};
use units::{Grams, Refusal};

// Fuel and quantity are numbers, and each is a parameter: callers hand over any, C one by one, and one that is none is refused
// with 11.

// The printed kinds of one fuel and quantity, in grams.
#[repr(C)]
#[derive(Clone, Copy)]
pub struct Row {
    pub urban: f64,
    pub rural: f64,
    pub highway: f64,
    pub cold: f64,
}

impl Row {
    // The field of a kind, by cases: a row is four fields, as C has it.
    fn of(self, kind: Kind) -> f64
        ensures { result ≡ field_of self kind }
    {
        match kind {
            Kind::Urban => self.urban,
            Kind::Rural => self.rural,
            Kind::Highway => self.highway,
            Kind::Cold => self.cold,
        }
    }
}

// Whole grams as a float, which loses nothing below 2^53.
fn exact_float(g: Grams) -> f64
    requires { g.0 < 2 ^ 53 }
    ensures { Exactly g.0 result }
{
    g.0 as f64
}

// A printed kind of a run in order as a float; fuel and quantity count from 0.
fn kind_float(run: &Run, fuel: usize, quantity: usize, kind: Kind) -> f64
    requires order { in_order run.now ≡ true }
    requires asked { (fuel < 3) × (quantity < 5) }
    ensures { Exactly (printed_kind run.now fuel quantity (kind_place kind)) result }
{
    let j = fuel * 20 + quantity * 4 + totals::kind_place(kind);
    exact_float(printed::kind_at(run, j))
}

// Whether the figures of a fuel and a quantity are not given: PM of fuels 1 and 3.
#[tactic(auto, unfolding(crate::specs::Map::not_given))]
fn not_given(fuel: u64, quantity: u64) -> bool
    ensures { result ≡ not_given fuel quantity }
{
    quantity == 4 && fuel != 2
}

// The row of a fuel and a quantity.
pub fn row_of(run: &Run, fuel: u64, quantity: u64) -> Result<Row, Refusal>
    ensures answer { row_answer result ≡ row_of run.now fuel quantity }
    ensures exact { AllExact (row_whole run.now fuel quantity) (row_answer result).floats }
{
    totals::question_verdict(run, fuel, quantity)?;
    let f = fuel as usize - 1;
    let q = quantity as usize - 1;
    Ok(Row {
        urban: kind_float(run, f, q, Kind::Urban),
        rural: kind_float(run, f, q, Kind::Rural),
        highway: kind_float(run, f, q, Kind::Highway),
        cold: kind_float(run, f, q, Kind::Cold),
    })
}

// One figure for the map: a float of grams, or None, the mark "not given".
pub fn figure_of(run: &Run, fuel: u64, quantity: u64, kind: Kind) -> Result<Option<f64>, Refusal>
    ensures answer { figure_answer result ≡ figure_of run.now fuel quantity kind }
    ensures exact { AllExact (figure_whole run.now fuel quantity kind) (figure_answer result).floats }
{
    let row = row_of(run, fuel, quantity)?;
    if not_given(fuel, quantity) {
        return Ok(None);
    }
    Ok(Some(row.of(kind)))
}

// Does nothing: its contract is that a figure is the row's field.
#[tactic(auto, using(crate::proofs::Claim::figure_claim))]
pub fn figure_claim()
    ensures { FigureClaim }
{}
