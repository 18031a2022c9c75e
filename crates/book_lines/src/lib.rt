// Lines and pages of a lent table in the order of the factor book.
#![tactic(auto)]

ghost use Rattle.std.specs.Prelude.{◌≡◌, ◌+◌, ◌*◌, ◌<◌, get_or};
ghost use Rattle.book_entries.specs.Book.{entry_place};
ghost use Rattle.book_lines.specs.Lines.{Others, line_of, page_of};

// The whole table is lent with the places, here and below, and not a part of it: places that are known when the program is compiled
// are what keeps the table from being built at each call (docs/PERFORMANCE.md).
//
// The entry of the class at a place, a quantity and speed 10 + k; a quantity is a place too, and no enum.
fn entry_at(t: &[u64; 3630], place: usize, quantity: usize, k: usize) -> u64
    requires { (place < 6) × (quantity < 5) × (k < 121) }
    ensures { result ≡ get_or t.now (entry_place place quantity k) 0 }
{
    t[(place * 5 + quantity) * 121 + k]
}

// The five quantities of the class at a place at speed 10 + k.
fn line_at(t: &[u64; 3630], place: usize, k: usize) -> [u64; 5]
    requires { (place < 6) × (k < 121) }
    ensures { result ≡ line_of t.now place k }
{
    [
        entry_at(t, place, 0, k),
        entry_at(t, place, 1, k),
        entry_at(t, place, 2, k),
        entry_at(t, place, 3, k),
        entry_at(t, place, 4, k),
    ]
}

// Page n, which is speed 10 + k of a pair of classes. Who calls it knows the pair and k as constants, so that every place that is
// read is one; n is there for the contract alone.
pub fn page_from(t: &[u64; 3630], n: usize, pair: usize, k: usize) -> [[u64; 5]; 2]
    requires n_value { n ≡ pair * 121 + k }
    requires pair_bound { (pair < 3) × (k < 121) }
    ensures { result ≡ page_of t.now n }
{
    let a = line_at(t, pair * 2, k);
    let b = line_at(t, pair * 2 + 1, k);
    [a, b]
}

// The last page: n is none of the pages before it.
pub fn page_last(t: &[u64; 3630], n: usize) -> [[u64; 5]; 2]
    requires n_bound { n < 363 }
    requires others { Others 362 n }
    ensures { result ≡ page_of t.now n }
{
    page_from(t, n, 2, 120)
}
