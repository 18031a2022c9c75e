// Makes the calls that standard input lists, one to a line; tools/vectors.py has the expected answers.
#![tactic(auto)]

use harness_answers::{print_answer, print_report, print_run};
use harness_lines::{each_line, number};
use harness_prints::{print, print_case};
use inventory::{Kind, Run};
use std::io;
use std::io::{Read, Write};

// The four kinds and the total of each fuel and quantity.
fn list(out: &mut impl Write, run: &Run) -> io::Result<()> {
    for fuel in 1..4 {
        for quantity in 1..6 {
            out.write_all(b"\n ")?;
            print(out, fuel)?;
            print(out, quantity)?;
            for kind in [Kind::Urban, Kind::Rural, Kind::Highway, Kind::Cold] {
                print_answer(out, &totals::kind_total(run, fuel, quantity, kind))?;
            }
            print_answer(out, &totals::total(run, fuel, quantity))?;
        }
    }
    Ok(())
}

// One line: the line itself, then what it does to the run or asks of it.
fn case(out: &mut impl Write, line: &[u8], run: &mut Run) -> io::Result<()> {
    print_case(out, line)?;
    // looked for where it is asked: a number that the line lacks may stand far behind it
    let n = |k| number(line, k);
    match line {
        // open L T..
        [b'o', ..] => harness_adds::open(out, run, line)?,
        // add TIMES CLASS VEHICLES KM SHARES SPEEDS
        [b'a', ..] => harness_adds::add(out, run, line)?,
        // set FIELD INDEX VALUE
        [b's', ..] => harness_adds::set(run, line),
        // total FUEL QUANTITY
        [b't', ..] => print_answer(out, &totals::total(run, n(1), n(2)))?,
        // kind FUEL QUANTITY KIND
        [b'k', ..] => {
            let kind = harness_runs::kind_of(n(3));
            print_answer(out, &totals::kind_total(run, n(1), n(2), kind))?
        }
        // balance FUEL QUANTITY S
        [b'b', ..] => print_answer(out, &balance::balance(run, n(1), n(2), n(3)))?,
        // report BYTES
        [b'r', ..] => print_report(out, run, n(1))?,
        // list
        [b'l', ..] => list(out, run)?,
        // fields
        [b'f', ..] => print_run(out, run)?,
        _ => {}
    }
    out.write_all(b"\n")
}

// At most so many bytes of cases are read.
const ROOM: u64 = 524288;

// Each program has its own lines and most have a state of their own, so `main` stays in each: shared, it would take both.
fn main(rt: HostRuntime) -> io::Result<()> {
    let mut cases = Vec::new(rt.alloc());
    rt.reader().take(ROOM).read_to_end(&mut cases)?;
    let mut out = rt.stdout();
    let mut run = recording::zeros();
    each_line(&cases, |line| case(&mut out, line, &mut run))
}
