// Fills 400 runs with 5,000 records each and prints the sums: the time of an add, beside bench/add_in_place.rs.
#![tactic(auto)]

use calendar::Period;
use inventory::{Amount, Head, Record, Run, Shares};
use std::io;
use units::{Speed, Speeds};

// Record i of the fleet: all seven classes in turn.
fn record_at(i: u64) -> Record {
    Record {
        class: i % 7 + 1,
        vehicles: i % 1000 + 1,
        km: i % 10000 + 1,
        shares: Shares {
            urban: 40,
            rural: 40,
            highway: 20,
        },
        speeds: Speeds {
            urban: Speed(i % 121 + 10),
            rural: Speed(i % 113 + 15),
            highway: Speed(i % 101 + 20),
        },
    }
}

// A fresh run with 5,000 records.
fn filled(fresh: &Run) -> Run {
    let mut run = *fresh;
    for i in 0..5000 {
        let _added = recording::add(&mut run, record_at(i));
    }
    run
}

// Printed by calls: `Amount` and `Run` are another crate's, so Display would need a struct around each, for one use.
fn print_amount(rt: &impl Print, a: Amount) -> io::Result<()> {
    println!(rt; "{} {}", a.grams.0, a.rest)
}

fn print_amounts(rt: &impl Print, run: &Run) -> io::Result<()> {
    for j in 0..60 {
        print_amount(rt, run.sum(j))?;
    }
    for k in 0..15 {
        print_amount(rt, run.total(k))?;
    }
    Ok(())
}

fn main(rt: HostRuntime) -> io::Result<()> {
    let head = Head {
        trip: 120,
        temps: [-50, 0, 50, 100, 150, 200, 200, 200, 150, 100, 50, 0],
        period: Period::Year,
    };
    if let Ok(fresh) = recording::open_run(head) {
        let mut run = fresh;
        for _ in 0..400 {
            run = filled(&fresh);
        }
        print_amounts(&rt, &run)?;
    }
    Ok(())
}
