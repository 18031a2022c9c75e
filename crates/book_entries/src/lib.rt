// The entries of the factor book, computed from the curves.
#![tactic(auto)]

ghost use Rattle.std.specs.Prelude.{◌≡◌, ◌<◌};
ghost use Rattle.book_entries.specs.Book.{class_at, entry_of};
ghost use Rattle.book_entries.specs.Claim.{BookClaim};

use units::{Speed, Speeds};

// The class at a place of the book.
#[tactic(auto, using(crate::proofs::Book::first_four, crate::proofs::Book::last_two))]
fn class_at(place: u64) -> u64
    requires { place < 6 }
    ensures { result ≡ class_at place }
{
    if place < 4 { place + 1 } else { place + 2 }
}

// Entry i, from its curve.
pub fn entry_of(i: u64) -> u64
    requires { i < 3630 }
    ensures { result ≡ entry_of i }
{
    let class = class_at(i / 605);
    let quantity = (i / 121 % 5) as usize;
    let v = 10 + i % 121;
    let on_any_road = Speeds {
        urban: Speed(v),
        rural: Speed(v),
        highway: Speed(v),
    };
    let e = factors::curve_factors(class, on_any_road);
    e[quantity * 3]
}

// Does nothing: its contract is that each entry of the book is its curve.
pub fn book_claim()
    ensures { BookClaim }
{}
