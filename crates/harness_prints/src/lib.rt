// What the test programs share about what they print: numbers, the line of a case, floats.
#![tactic(auto)]

ghost use Rattle.std.specs.Prelude.{◌∷◌, OnOk};
ghost use Rattle.std.specs.Fmt.{decimal};
ghost use Rattle.std.specs.Io.KnownBytes.{Appends};
ghost use Rattle.std.specs.Float.{minus_one, two_to, ◌<ᶠ◌, float_to_unsigned};
ghost use Rattle.std.specs.Int.{w64};
ghost use Rattle.harness_prints.specs.Prints.{numbers_text, case_text, whole_text, float_text};

use std::io;
use std::io::Write;

// A space and a number.
pub fn print<W: Write>(out: &mut W, n: u64) -> io::Result<()>
    ensures { OnOk result (Appends (W.contents out.old) (W.contents out.new) (32 ∷ decimal n)) }
{
    write!(out, " {n}")
}

// A space and a number, for each number.
pub fn print_numbers<W: Write>(out: &mut W, numbers: &[u64]) -> io::Result<()>
    ensures { OnOk result (Appends (W.contents out.old) (W.contents out.new) (numbers_text numbers.now)) }
{
    for n in numbers {
        print(out, *n)?;
    }
    Ok(())
}

// The line of a case as far as it goes, and ` =` behind it.
pub fn print_case<W: Write>(out: &mut W, line: &[u8]) -> io::Result<()>
    ensures { OnOk result (Appends (W.contents out.old) (W.contents out.new) (case_text line.now)) }
{
    out.write_all(harness_lines::split(line, b'\n').0)?;
    out.write_all(b" =")
}

// The whole part of a float; a point behind it where that is not all.
fn print_whole<W: Write>(out: &mut W, x: f64) -> io::Result<()>
    requires above { minus_one <ᶠ x }
    requires below { x <ᶠ two_to 64 }
    ensures { OnOk result (Appends (W.contents out.old) (W.contents out.new) (whole_text x (float_to_unsigned w64 x))) }
{
    let n = std::num::truncating_f64_to_u64(x);
    print(out, n)?;
    if std::num::nearest_u64_to_f64(n) == x {
        return Ok(());
    }
    out.write_all(b".")
}

// A float as the whole number it is; a point behind the whole part of any other.
pub fn print_float<W: Write>(out: &mut W, x: f64) -> io::Result<()>
    ensures { OnOk result (Appends (W.contents out.old) (W.contents out.new) (float_text x)) }
{
    if x > -1.0 && x < 18446744073709551616.0 {
        return print_whole(out, x);
    }
    out.write_all(b".")
}
