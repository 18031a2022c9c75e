// Makes the calls on areas that standard input lists, one to a line; tools/area_vectors.py has the expected answers.
#![tactic(auto)]

use harness_answers::print_answer;
use harness_lines::{each_line, number};
use harness_prints::{print, print_case, print_numbers};
use inventory::Run;
use std::io;
use std::io::{Read, Write};
use units::Grams;

// The whole grams of each amount.
fn print_grams(out: &mut impl Write, grams: &[Grams]) -> io::Result<()> {
    for g in grams {
        print(out, g.0)?;
    }
    Ok(())
}

// Every number of a run, in the order of its fields. `Run` is another crate's: Display would need a struct around it, for one use.
fn print_fields(out: &mut impl Write, run: &Run) -> io::Result<()> {
    print(out, run.trip)?;
    print_numbers(out, &run.x)?;
    print(out, run.count)?;
    for km in &run.km {
        print(out, km.0)?;
    }
    print_grams(out, &run.grams)?;
    print_numbers(out, &run.rests)?;
    print_grams(out, &run.total_grams)?;
    print_numbers(out, &run.total_rests)
}

// The number of the run of an area, and of it the answer of a total, 0 and 0 where there is no run. The fuel and the
// quantity are numbers, as a line of standard input and the C interface have them.
fn print_total(
    out: &mut impl Write,
    numbers: &[u64],
    area: u64,
    fuel: u64,
    quantity: u64,
) -> io::Result<()> {
    match area_recording::area_run(numbers, area) {
        Ok(run) => {
            print(out, 0)?;
            print_answer(out, &totals::total(&run, fuel, quantity))
        }
        Err(reason) => print_numbers(out, &[units::refusal_number(reason), 0, 0]),
    }
}

// What a line does to the numbers lent.
fn change(out: &mut impl Write, line: &[u8], numbers: &mut [u64]) -> io::Result<()> {
    match line {
        // open L T..
        [b'o', ..] => harness_areas::open(out, numbers, line),
        // add AREA TIMES CLASS VEHICLES KM SHARES SPEEDS: the second letter tells it from `all`
        [_, b'd', ..] => harness_areas::add(out, numbers, line),
        _ => Ok(()),
    }
}

// What a line asks of the numbers lent.
fn ask(out: &mut impl Write, line: &[u8], numbers: &[u64]) -> io::Result<()> {
    // looked for where it is asked: a number that the line lacks may stand far behind it
    let n = |k| number(line, k);
    match line {
        // run AREA
        [b'r', ..] => {
            let run = area_recording::area_run(numbers, n(1));
            print(out, units::answer_number(&run))?;
            print_fields(out, &harness_adds::given(run))
        }
        // total AREA FUEL QUANTITY
        [b't', ..] => print_total(out, numbers, n(1), n(2), n(3)),
        _ => Ok(()),
    }
}

// Changes a number by hand, where there is one at the place that the line names.
fn put(numbers: &mut [u64], place: u64, value: u64) {
    if let Some(number) = numbers.get_mut(place as usize) {
        *number = value;
    }
}

// What a line does to the first numbers, as many as are lent, and then asks of them; the state is `main`'s, so no struct holds it.
fn change_lent(
    out: &mut impl Write,
    line: &[u8],
    numbers: &mut [u64],
    lent: u64,
) -> io::Result<()> {
    match numbers.get_mut(..lent as usize) {
        Some(first) => {
            change(out, line, first)?;
            ask(out, line, first)
        }
        None => Ok(()),
    }
}

// One line: the line itself, then what it does or asks. A second byte `d` adds, unless the first is an `o` or a `p`, and prints the
// common use; a second byte `l` prints all numbers. An empty line's second byte is the next line's first.
fn case(out: &mut impl Write, line: &[u8], numbers: &mut [u64], lent: &mut u64) -> io::Result<()> {
    print_case(out, line)?;
    match line {
        // put PLACE VALUE
        [b'p', ..] => put(numbers, number(line, 1), number(line, 2)),
        _ => change_lent(out, line, numbers, *lent)?,
    }
    match line {
        // all
        [_, b'l', ..] => print_numbers(out, numbers)?,
        // behind an add the common use
        [_, b'd', ..] => {
            if let Some(common) = numbers.get(2736) {
                print(out, *common)?;
            }
        }
        _ => {}
    }
    out.write_all(b"\n")?;
    // lend N
    if let [b'l', ..] = line {
        *lent = number(line, 1);
    }
    Ok(())
}

// At most so many bytes of cases are read.
const ROOM: u64 = 524288;

// Its state is this program's own, as in `vectors`.
fn main(rt: HostRuntime) -> io::Result<()> {
    let mut cases = Vec::new(rt.alloc());
    rt.reader().take(ROOM).read_to_end(&mut cases)?;
    let mut out = rt.stdout();
    let mut numbers = [0; 2880];
    let mut lent = 2737;
    each_line(&cases, |line| case(&mut out, line, &mut numbers, &mut lent))
}
