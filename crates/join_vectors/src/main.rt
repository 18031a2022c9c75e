// Joins runs, and asks what comes of it, as standard input lists it; tools/join_vectors.py has the expected answers.
#![tactic(auto)]

use harness_answers::{print_answer, print_report, print_run};
use harness_lines::{each_line, number, word};
use harness_prints::{print, print_case};
use inventory::Run;
use std::io;
use std::io::{Read, Write};

// The run of the number that a line names, that of zeros beyond the eight.
fn run_at(runs: &[Run], k: u64) -> Run {
    runs.get(k as usize).copied().unwrap_or(recording::zeros())
}

// What a line does to its run, or asks of it.
fn change(
    out: &mut impl Write,
    line: &[u8],
    run: &mut Run,
    runs: &[Run],
    areas: &mut [u64],
) -> io::Result<()> {
    // looked for where it is asked: a number that the line lacks may stand far behind it
    let n = |k| number(line, k);
    match line {
        // open R L T..
        [b'o', ..] => harness_adds::open(out, run, word(line, 1)),
        // add R TIMES CLASS VEHICLES KM SHARES SPEEDS
        [b'a', ..] => harness_adds::add(out, run, word(line, 1)),
        // set R FIELD INDEX VALUE
        [b's', ..] => {
            harness_adds::set(run, word(line, 1));
            Ok(())
        }
        // join R A B
        [b'j', ..] => {
            *run = run_at(runs, n(2));
            let joined = joining::join(run, &run_at(runs, n(3)));
            print(out, units::answer_number(&joined))
        }
        // take R AREA
        [b't', ..] => {
            let taken = area_recording::area_run(areas, n(2));
            let number = units::answer_number(&taken);
            *run = harness_adds::given(taken);
            print(out, number)
        }
        // divide L T..
        [b'd', ..] => harness_areas::open(out, areas, line),
        // inside AREA TIMES CLASS VEHICLES KM SHARES SPEEDS
        [b'i', ..] => harness_areas::add(out, areas, line),
        // fields R
        [b'f', ..] => print_run(out, run),
        // grams R FUEL QUANTITY
        [b'g', ..] => print_answer(out, &totals::total(run, n(2), n(3))),
        // balance R FUEL QUANTITY S
        [b'b', ..] => print_answer(out, &balance::balance(run, n(2), n(3), n(4))),
        // row R FUEL QUANTITY
        [b'r', ..] => print_answer(out, &map::row_of(run, n(2), n(3))),
        // print R BYTES
        [b'p', ..] => print_report(out, run, n(2)),
        _ => Ok(()),
    }
}

// One line: the line itself, then what it does or asks.
fn case(out: &mut impl Write, line: &[u8], runs: &mut [Run], areas: &mut [u64]) -> io::Result<()> {
    print_case(out, line)?;
    let k = number(line, 1);
    let mut run = run_at(runs, k);
    change(out, line, &mut run, runs, areas)?;
    if let Some(old) = runs.get_mut(k as usize) {
        *old = run;
    }
    out.write_all(b"\n")
}

// At most so many bytes of cases are read.
const ROOM: u64 = 524288;

// Its state is this program's own, as in `vectors`.
fn main(rt: HostRuntime) -> io::Result<()> {
    let mut cases = Vec::new(rt.alloc());
    rt.reader().take(ROOM).read_to_end(&mut cases)?;
    let mut out = rt.stdout();
    let mut runs = [recording::zeros(); 8];
    let mut areas = [0; 2737];
    each_line(&cases, |line| case(&mut out, line, &mut runs, &mut areas))
}
