// The factor book, and the 15 factors of a record read from it.
#![tactic(auto)]

ghost use Rattle.std.specs.Prelude.{◌≡◌, ◌-◌, ◌≤◌, ◌<◌};
ghost use Rattle.units.specs.Lists.{tab};
ghost use Rattle.factors.specs.Factors.{Driven, factor_at};
ghost use Rattle.book_entries.specs.Book.{book, place_of};
ghost use Rattle.book_lines.specs.Lines.{line_of, page_of};

mod entries; // entries.rt: the constant BOOK

use units::{Speed, Speeds};

// The constant is the book: the one place that names it, and the one test of its 3,630 entries.
fn factor_book() -> [u64; 3630]
    ensures { result ≡ book }
{
    entries::BOOK
}

// Page n of the book. With a second caller of `page_at` the compiler would build the whole constant at each add
// (docs/PERFORMANCE.md); tests/book.py tells.
fn page_of(n: usize) -> [[u64; 5]; 2]
    requires { n < 363 }
    ensures { result ≡ page_of book n }
{
    let t = factor_book();
    book_pages::page_at(&t, n)
}

// The place of a class in the book. Here and below the class is the number of a record, which a caller may set to any.
#[tactic(auto, unfolding(book_entries::specs::Book::place_of))]
fn place_of(class: u64) -> usize
    requires { (1 ≤ class) × (class ≤ 7) × (class ≡ 5 → ⊥) }
    ensures { result ≡ place_of class }
{
    let place = if class < 5 { class - 1 } else { class - 2 };
    place as usize
}

// The line of a class at a speed; a page holds two.
fn line_of(class: u64, v: Speed) -> [u64; 5]
    requires driven { Driven class v.0 }
    requires fact { class ≡ 5 → ⊥ }
    ensures { result ≡ line_of book (place_of class) (v.0 - 10) }
{
    let place = place_of(class);
    let k = (v.0 - 10) as usize;
    let [first, second] = page_of(place / 2 * 121 + k);
    // By `[first, second][place % 2]` the page would be stored first: 4 ns more of 24 for the 15 factors.
    if place % 2 == 0 { first } else { second }
}

// The 15 factors of a class: 5 quantities of 3 roads, each road at its own speed; class 5 is not in the book. The loop keeps
// `line_of` at one call, so that the compiler inlines it.
pub fn factors_of(class: u64, speeds: Speeds) -> [u64; 15]
    requires { Driven class speeds.urban.0 × Driven class speeds.rural.0 × Driven class speeds.highway.0 }
    ensures { result ≡ tab (factor_at class speeds.urban.0 speeds.rural.0 speeds.highway.0) 15 }
{
    if class == 5 {
        return factors::two_stroke();
    }
    let by_road = [speeds.urban, speeds.rural, speeds.highway];
    let mut lines = [[0u64; 5]; 3];
    for (road, v) in by_road.iter().enumerate() {
        lines[road] = line_of(class, *v);
    }
    let u = lines[0];
    let r = lines[1];
    let h = lines[2];
    [
        u[0], r[0], h[0], u[1], r[1], h[1], u[2], r[2], h[2], u[3], r[3], h[3], u[4], r[4], h[4],
    ]
}
