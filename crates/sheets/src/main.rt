// Reads the sheets that standard input holds, and prints the answer for each. The expected output comes from
// tools/sheets.py, which calculates it from the specification alone.
//
// `+ TIMES BYTES` and a line end, then that many bytes and a line end: the bytes stand so many times in the sheet, line ends in place
// of those that standard input lacks.
// `= LABEL` and a line end: the sheet is whole. Its answer is the label, the number, the line, and the word `zeros` for a
// run of zeros, else every field of the run and the printed totals.
#![tactic(auto)]

ghost use Rattle.std.specs.Prelude.{◌≤◌, length};

use harness_answers::print_run;
use harness_lines::{LINES, number, split, word};
use harness_prints::{print, print_case, print_numbers};
use inventory::Run;
use std::io;
use std::io::{Read, Write};

// The fifteen totals; 0 for one that is refused, which none of a sheet's run is. They are asked one by one: no value holds them
// for a Display.
fn print_totals(out: &mut impl Write, run: &Run) -> io::Result<()> {
    for fuel in 1..4 {
        for quantity in 1..6 {
            print(out, totals::total(run, fuel, quantity).map_or(0, |g| g.0))?;
        }
    }
    Ok(())
}

// The number and the line, 0 where the sheet is taken, and the run.
fn print_sheet(out: &mut impl Write, text: &[u8]) -> io::Result<()> {
    match sheet::read_sheet(text) {
        Ok(run) => {
            print_numbers(out, &[0, 0])?;
            print_run(out, &run)?;
            print_totals(out, &run)
        }
        Err(bad) => {
            print_numbers(out, &[units::refusal_number(bad.reason), bad.line as u64])?;
            out.write_all(b" zeros")
        }
    }
}

// The first n bytes, all of them where there are fewer, and those behind them. A line names n, so it is a number and no place.
fn cut(text: &[u8], n: u64) -> (&[u8], &[u8])
    ensures { length result.1.now ≤ length text.now }
{
    text.split_at_checked(n as usize).unwrap_or((text, &[]))
}

// Puts n bytes behind the sheet, so many times: the first n of a text, and line ends for those that it lacks.
fn append(sheet: &mut Vec<u8>, text: &[u8], n: u64, times: u64) -> io::Result<()> {
    let bytes = cut(text, n).0;
    for _ in 0..times {
        // nothing comes behind a full sheet
        if n == 0 || sheet.len() == SHEET {
            break;
        }
        let len = sheet.len().saturating_add(n as usize).min(SHEET);
        sheet.extend_from_slice(bytes)?;
        sheet.resize(len, b'\n')?;
    }
    Ok(())
}

// Every line, one after another, at most LINES. The numbers of a `+` are counted over the text from its line on.
fn lines(out: &mut impl Write, cases: &[u8], sheet: &mut Vec<u8>) -> io::Result<()> {
    let mut rest = cases;
    // a sheet's bytes have line ends of their own, so no iterator over lines serves
    for _ in 0..LINES {
        if rest.is_empty() {
            break;
        }
        let (line, behind) = split(rest, b'\n');
        if let [b'+', ..] = line {
            let n = number(rest, 2);
            append(sheet, behind, n, number(rest, 1))?;
            rest = cut(cut(behind, n).1, 1).1;
        } else {
            print_case(out, word(line, 1))?;
            print_sheet(out, sheet)?;
            out.write_all(b"\n")?;
            sheet.clear();
            rest = behind;
        }
    }
    Ok(())
}

// A sheet is cut behind so many bytes.
const SHEET: usize = 262144;

// At most so many bytes of cases are read.
const ROOM: u64 = 1048576;

fn main(rt: HostRuntime) -> io::Result<()> {
    let mut cases = Vec::new(rt.alloc());
    rt.reader().take(ROOM).read_to_end(&mut cases)?;
    let mut sheet = Vec::new(rt.alloc());
    lines(&mut rt.stdout(), &cases, &mut sheet)
}
