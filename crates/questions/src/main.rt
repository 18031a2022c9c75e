// Asks for CO2, SO2, lead, rows and figures as standard input lists them; tools/questions.py has the expected answers.
#![tactic(auto)]

use harness_answers::print_answer;
use harness_lines::{each_line, number};
use harness_prints::print_case;
use inventory::Run;
use std::io;
use std::io::{Read, Write};

// One line: the line itself, then what it does to the run or asks of it.
fn case(out: &mut impl Write, line: &[u8], run: &mut Run) -> io::Result<()> {
    print_case(out, line)?;
    // looked for where it is asked: a number that the line lacks may stand far behind it
    let n = |k| number(line, k);
    match line {
        // open L T..
        [b'o', ..] => harness_adds::open(out, run, line)?,
        // add TIMES CLASS VEHICLES KM SHARES SPEEDS
        [b'a', ..] => harness_adds::add(out, run, line)?,
        // put FIELD INDEX VALUE
        [b'p', ..] => harness_adds::set(run, line),
        // co2 FUEL R
        [b'c', ..] => print_answer(out, &fuel::co2(run, n(1), n(2)))?,
        // so2 FUEL S
        [b's', ..] => print_answer(out, &fuel::so2(run, n(1), n(2)))?,
        // lead FUEL L
        [b'l', ..] => print_answer(out, &fuel::lead(run, n(1), n(2)))?,
        // row FUEL QUANTITY
        [b'r', ..] => print_answer(out, &map::row_of(run, n(1), n(2)))?,
        // figure FUEL QUANTITY KIND
        [b'f', ..] => {
            let kind = harness_runs::kind_of(n(3));
            print_answer(out, &map::figure_of(run, n(1), n(2), kind))?
        }
        _ => {}
    }
    out.write_all(b"\n")
}

// At most so many bytes of cases are read.
const ROOM: u64 = 262144;

// Its state is this program's own, as in `vectors`.
fn main(rt: HostRuntime) -> io::Result<()> {
    let mut cases = Vec::new(rt.alloc());
    rt.reader().take(ROOM).read_to_end(&mut cases)?;
    let mut out = rt.stdout();
    let mut run = recording::zeros();
    each_line(&cases, |line| case(&mut out, line, &mut run))
}
