// What the test programs print of an answer: its number, and what stands behind it.
#![tactic(auto)]

ghost use Rattle.std.specs.Prelude.{ℕ, List, [], ◌∷◌, OnOk};
ghost use Rattle.std.specs.Io.KnownBytes.{Appends};
ghost use Rattle.units.specs.Lists.{tab};
ghost use Rattle.harness_prints.specs.Prints.{numbers_text};
ghost use Rattle.harness_runs.specs.Runs.{field_at};
ghost use Rattle.harness_answers.specs.Answers.{answer_text, row_text, figure_text, report_text, dots_text};

use balance::BalanceFigures;
use harness_prints::{print, print_float, print_numbers};
use inventory::Run;
use map::Row;
use std::io;
use std::io::Write;
use units::{Grams, Refusal};

// A value that stands behind the number of an answer.
pub trait Shown {
    // What is printed of it, and in its place where the answer is refused.
    ghost given: { Self → List ℕ };

    ghost refused: { List ℕ };

    fn print_given<W: Write>(&self, out: &mut W) -> io::Result<()>
        ensures { OnOk result (Appends (W.contents out.old) (W.contents out.new) (given self.now)) };

    fn print_refused<W: Write>(out: &mut W) -> io::Result<()>
        ensures { OnOk result (Appends (W.contents out.old) (W.contents out.new) refused) };
}

// Whole grams, 0 where there are none.
impl Shown for Grams {
    ghost given = { λ g. numbers_text (g.0 ∷ []) };

    ghost refused = { numbers_text (0 ∷ []) };

    fn print_given<W: Write>(&self, out: &mut W) -> io::Result<()> {
        print(out, self.0)
    }

    fn print_refused<W: Write>(out: &mut W) -> io::Result<()> {
        print(out, 0)
    }
}

// A balance: its factor, the digits and the grams, 0 where there are none.
impl Shown for BalanceFigures {
    ghost given = { λ f. numbers_text (f.k ∷ f.digits ∷ f.grams.0 ∷ []) };

    ghost refused = { numbers_text (0 ∷ 0 ∷ 0 ∷ []) };

    fn print_given<W: Write>(&self, out: &mut W) -> io::Result<()> {
        print_numbers(out, &[self.k, self.digits, self.grams.0])
    }

    fn print_refused<W: Write>(out: &mut W) -> io::Result<()> {
        print_numbers(out, &[0, 0, 0])
    }
}

// The length of a report, 0 where there is none.
impl Shown for usize {
    ghost given = { λ n. numbers_text (n ∷ []) };

    ghost refused = { numbers_text (0 ∷ []) };

    fn print_given<W: Write>(&self, out: &mut W) -> io::Result<()> {
        print(out, *self as u64)
    }

    fn print_refused<W: Write>(out: &mut W) -> io::Result<()> {
        print(out, 0)
    }
}

// The four floats of a row, nothing where there are none.
impl Shown for Row {
    ghost given = { row_text };

    ghost refused = { [] };

    fn print_given<W: Write>(&self, out: &mut W) -> io::Result<()> {
        print_float(out, self.urban)?;
        print_float(out, self.rural)?;
        print_float(out, self.highway)?;
        print_float(out, self.cold)
    }

    fn print_refused<W: Write>(_out: &mut W) -> io::Result<()> {
        Ok(())
    }
}

// A float, or the mark of a figure that is not given; nothing where the answer is refused.
impl Shown for Option<f64> {
    ghost given = { figure_text };

    ghost refused = { [] };

    fn print_given<W: Write>(&self, out: &mut W) -> io::Result<()> {
        match self {
            Some(x) => print_float(out, *x),
            None => out.write_all(b" not given"),
        }
    }

    fn print_refused<W: Write>(_out: &mut W) -> io::Result<()> {
        Ok(())
    }
}

// Printed by calls: an answer, a run and a buffer are types of std and of other crates, so Display would need a struct around each.
//
// The number of an answer, and what stands behind it.
pub fn print_answer<W: Write, T: Shown>(out: &mut W, answer: &Result<T, Refusal>) -> io::Result<()>
    ensures { OnOk result (Appends (W.contents out.old) (W.contents out.new) (answer_text T.given T.refused answer.now)) }
{
    print(out, units::answer_number(answer))?;
    match answer {
        Ok(value) => value.print_given(out),
        Err(_) => T::print_refused(out),
    }
}

// The 171 numbers of a run.
pub fn print_run<W: Write>(out: &mut W, run: &Run) -> io::Result<()>
    ensures { OnOk result (Appends (W.contents out.old) (W.contents out.new) (numbers_text (tab (field_at run.now) 171))) }
{
    for i in 0..171 {
        print(out, harness_runs::field_at(run, i))?;
    }
    Ok(())
}

// The answer of a report into a buffer, and the buffer afterwards.
#[tactic(auto, using(crate::proofs::Reports::answer_reported))]
fn print_report_in<W: Write>(out: &mut W, run: &Run, buffer: &mut [u8]) -> io::Result<()>
    ensures { OnOk result (Appends (W.contents out.old) (W.contents out.new) (report_text run.now buffer.old)) }
{
    let answer = listing::write_report(run, buffer);
    print_answer(out, &answer)?;
    out.write_all(b"\n")?;
    out.write_all(buffer)
}

// The same of a buffer of so many dots, 1,600 at most; nothing of more.
pub fn print_report<W: Write>(out: &mut W, run: &Run, size: u64) -> io::Result<()>
    ensures { OnOk result (Appends (W.contents out.old) (W.contents out.new) (dots_text run.now size)) }
{
    let mut dots = [b'.'; 1600];
    if size <= 1600 {
        return print_report_in(out, run, &mut dots[..size as usize]);
    }
    Ok(())
}
