// What the test programs share about standard input: its lines, and the words and numbers of a line. A line is lent as the text
// from it on, so what it lacks is read on from what stands behind it.
#![tactic(auto)]

ghost use Rattle.std.specs.Prelude.{◌≡◌, ◌==◌, true, position, take, Ok, OnOk};
ghost use Rattle.std.specs.Fn.{CalledAt};
ghost use Rattle.std.specs.List.{FoldsTo};
ghost use Rattle.harness_lines.specs.Lines.{part_before, part_behind, word_in, with_digit, digits_of, as_positive, as_negative, number_in, signed_in, from_lines};

use std::io;

// The place of the first byte c.
fn place(text: &[u8], c: u8) -> Option<usize>
    ensures { result ≡ position (λ x. x == c) text.now }
{
    text.iter().position(|x| *x == c)
}

// The bytes before the first byte c, and those behind it; all of them and none where there is none.
#[tactic(auto, using(crate::proofs::Parts::before_found, crate::proofs::Parts::behind_found, crate::proofs::Parts::before_none, crate::proofs::Parts::behind_none))]
pub fn split(text: &[u8], c: u8) -> (&[u8], &[u8])
    ensures before { result.0.now ≡ part_before c text.now }
    ensures behind { result.1.now ≡ part_behind c text.now }
{
    match place(text, c) {
        Some(n) => (&text[..n], &text[n + 1..]),
        None => (text, &[]),
    }
}

// `word`, `number` and `signed` take a line and a word's number: a struct of the two would be made for one call.
//
// The text from word k on, counted from a line on; the first is word 0. A space alone ends a word, so behind the line's last word
// the words of the next lines count on.
#[tactic(auto, unfolding(crate::specs::Lines::word_in))]
pub fn word(line: &[u8], k: u64) -> &[u8]
    ensures { result.now ≡ word_in k line.now }
{
    let mut rest = line;
    for _i in 0..k {
        rest = split(rest, b' ').1;
    }
    rest
}

// n with one more digit behind it, n itself where 64 bits do not hold that.
#[tactic(auto, unfolding(crate::specs::Lines::with_digit))]
fn with_digit(n: u64, d: u64) -> u64
    ensures { result ≡ with_digit n d }
{
    n.checked_mul(10)
        .and_then(|m| m.checked_add(d))
        .unwrap_or(n)
}

// The number that a word begins with.
#[tactic(auto, using(units::proofs::Tests::inside_low, crate::proofs::Lines::digits_next, crate::proofs::Lines::digits_here, crate::proofs::Lines::digits_behind), unfolding(crate::specs::Lines::digits_of))]
fn digits(word: &[u8]) -> u64
    ensures { result ≡ digits_of 0 word.now }
{
    let mut n = 0;
    for c in word {
        let digit = u64::from(*c);
        if units::is_outside(48, 57, digit) {
            return n;
        }
        n = with_digit(n, digit - 48);
    }
    n
}

// The number at word k, counted from a line on; 0 where no digit stands there.
#[tactic(auto, unfolding(crate::specs::Lines::number_in))]
pub fn number(line: &[u8], k: u64) -> u64
    ensures { result ≡ number_in line.now k }
{
    digits(word(line, k))
}

// n as a signed number, the greatest where it is too large.
#[tactic(auto, unfolding(crate::specs::Lines::as_positive))]
fn positive(n: u64) -> i64
    ensures { result ≡ as_positive n }
{
    i64::try_from(n).unwrap_or(i64::MAX)
}

// Minus n, the least number where it is less.
#[tactic(auto, unfolding(crate::specs::Lines::as_negative))]
fn negative(n: u64) -> i64
    ensures { result ≡ as_negative n }
{
    i64::try_from(n).map_or(i64::MIN, |x| -x)
}

// The signed number at word k, counted from a line on.
#[tactic(auto, using(crate::proofs::Lines::signed_minus, crate::proofs::Lines::signed_plain), unfolding(crate::specs::Lines::signed_in, crate::specs::Lines::signed_of))]
pub fn signed(line: &[u8], k: u64) -> i64
    ensures { result ≡ signed_in line.now k }
{
    let word = word(line, k);
    match word.split_first() {
        Some((b'-', rest)) => negative(digits(rest)),
        Some(_) => positive(digits(word)),
        None => 0,
    }
}

// At most so many lines of a text are worked on.
pub const LINES: u64 = 100000;

// Calls f at the text from each line on, in order, as far as it succeeds and for the first LINES lines.
pub fn each_line<F: FnMut(&[u8]) -> io::Result<()>>(text: &[u8], mut f: F) -> io::Result<()>
    requires { F.IsAlwaysCallable f }
    ensures { OnOk result ((last : F) × FoldsTo (λ g rest h. CalledAt F.FnMut g rest (Ok tt) h) f (take 100000 (from_lines true text.now)) last) }
{
    let mut rest = text;
    for _line in 0..LINES {
        if rest.is_empty() {
            return Ok(());
        }
        f(rest)?;
        rest = split(rest, b'\n').1;
    }
    Ok(())
}
