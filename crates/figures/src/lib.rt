// The printed figures of a run as one table, so that the lines of the report need not take the whole run.
#![tactic(auto)]

ghost use Rattle.std.specs.Prelude.{◌≡◌, ◌<◌};
ghost use Rattle.inventory.specs.Order.{in_billionths};
ghost use Rattle.inventory.specs.Limits.{AmountLimits, RunLimits, TotalLimits};
ghost use Rattle.figures.specs.Table.{row_from, row_at, figures};

use inventory::{Amount, Run};
use std::array;
use units::Grams;

// The printed figures of a fuel and a quantity.
#[derive(Clone, Copy)]
pub struct Row {
    pub urban: Grams,
    pub rural: Grams,
    pub highway: Grams,
    pub cold: Grams,
    pub total: Grams,
}

// The printed figures of a run: the row fuel × 5 + quantity, both from 0.
#[derive(Clone, Copy)]
pub struct Figures {
    pub rows: [Row; 15],
}

// A row from its four sums and its total.
fn row_from(urban: Amount, rural: Amount, highway: Amount, cold: Amount, total: Amount) -> Row
    requires { AmountLimits urban × AmountLimits rural × AmountLimits highway × AmountLimits cold × AmountLimits total }
    ensures { result ≡ row_from (in_billionths urban) (in_billionths rural) (in_billionths highway) (in_billionths cold) (in_billionths total) }
{
    Row {
        urban: printed::to_grams(urban),
        rural: printed::to_grams(rural),
        highway: printed::to_grams(highway),
        cold: printed::to_grams(cold),
        total: printed::to_grams(total),
    }
}

// The row k of a run in order.
fn row_at(run: &Run, k: usize) -> Row
    requires { RunLimits run.now × TotalLimits run.now × k < 15 }
    ensures { result ≡ row_at run.now k }
{
    let j = k * 4;
    row_from(
        run.sum(j),
        run.sum(j + 1),
        run.sum(j + 2),
        run.sum(j + 3),
        run.total(k),
    )
}

// The printed figures of a run in order.
pub fn figures_of(run: &Run) -> Figures
    requires { RunLimits run.now × TotalLimits run.now }
    ensures { result ≡ figures run.now }
{
    Figures {
        rows: array::from_fn(|k| row_at(run, k)),
    }
}
