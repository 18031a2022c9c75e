// The calls for C, Rust and Python that give the map's rows and figures. An answer is a number and values.
// C has no Result, no Option and no Kind: so an answer is a number beside values, made by cases; each kind has a call of its own;
// and a question's run, fuel and quantity come one by one.
#![tactic(auto)]

ghost use Rattle.std.specs.Prelude.{◌≡◌};
ghost use Rattle.inventory.specs.declared.Kind.{Kind};
ghost use Rattle.map.specs.Map.{row_answer, row_of, figure_answer, figure_of};
ghost use Rattle.capi_map.specs.Answers.{map_row, map_figure};

use inventory::{Kind, Run};
use map::Row;
use units::Refusal;

// A number, 0 where it is given, and the printed kinds as floats.
#[repr(C)]
#[derive(Clone, Copy)]
pub struct MapRow {
    pub number: u64,
    pub urban: f64,
    pub rural: f64,
    pub highway: f64,
    pub cold: f64,
}

impl From<Result<Row, Refusal>> for MapRow {
    ghost from_gives = { λ x y. y ≡ map_row (row_answer x) };

    #[tactic(auto, using(crate::proofs::Crossing::no_float), unfolding(map::specs::Map::row_answer))]
    fn from(answer: Result<Row, Refusal>) -> MapRow {
        match answer {
            Ok(row) => MapRow {
                number: 0,
                urban: row.urban,
                rural: row.rural,
                highway: row.highway,
                cold: row.cold,
            },
            Err(r) => MapRow {
                number: units::refusal_number(r),
                urban: 0.0,
                rural: 0.0,
                highway: 0.0,
                cold: 0.0,
            },
        }
    }
}

// A number, whether the figure is given (1) or not (0), and its grams.
#[repr(C)]
#[derive(Clone, Copy)]
pub struct MapFigure {
    pub number: u64,
    pub given: u64,
    pub grams: f64,
}

impl From<Result<Option<f64>, Refusal>> for MapFigure {
    ghost from_gives = { λ x y. y ≡ map_figure (figure_answer x) };

    #[tactic(auto, using(crate::proofs::Crossing::no_float), unfolding(map::specs::Map::figure_answer))]
    fn from(answer: Result<Option<f64>, Refusal>) -> MapFigure {
        let none = MapFigure {
            number: 0,
            given: 0,
            grams: 0.0,
        };
        match answer {
            Ok(Some(grams)) => MapFigure {
                given: 1,
                grams,
                ..none
            },
            Ok(None) => none,
            Err(r) => MapFigure {
                number: units::refusal_number(r),
                ..none
            },
        }
    }
}

#[unsafe(no_mangle)]
pub extern "C" fn haldurap_map_row(run: Run, fuel: u64, quantity: u64) -> MapRow
    ensures { result ≡ map_row (row_of run fuel quantity) }
{
    MapRow::from(map::row_of(&run, fuel, quantity))
}

#[unsafe(no_mangle)]
pub extern "C" fn haldurap_figure_urban(run: Run, fuel: u64, quantity: u64) -> MapFigure
    ensures { result ≡ map_figure (figure_of run fuel quantity Kind.Urban) }
{
    MapFigure::from(map::figure_of(&run, fuel, quantity, Kind::Urban))
}

#[unsafe(no_mangle)]
pub extern "C" fn haldurap_figure_rural(run: Run, fuel: u64, quantity: u64) -> MapFigure
    ensures { result ≡ map_figure (figure_of run fuel quantity Kind.Rural) }
{
    MapFigure::from(map::figure_of(&run, fuel, quantity, Kind::Rural))
}

#[unsafe(no_mangle)]
pub extern "C" fn haldurap_figure_highway(run: Run, fuel: u64, quantity: u64) -> MapFigure
    ensures { result ≡ map_figure (figure_of run fuel quantity Kind.Highway) }
{
    MapFigure::from(map::figure_of(&run, fuel, quantity, Kind::Highway))
}

#[unsafe(no_mangle)]
pub extern "C" fn haldurap_figure_cold(run: Run, fuel: u64, quantity: u64) -> MapFigure
    ensures { result ≡ map_figure (figure_of run fuel quantity Kind.Cold) }
{
    MapFigure::from(map::figure_of(&run, fuel, quantity, Kind::Cold))
}
