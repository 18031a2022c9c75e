// The values X of a head.
#![tactic(auto)]

ghost use Rattle.std.specs.Prelude.{◌≡◌, true, ◌≤◌, ◌<◌};
ghost use Rattle.units.specs.Lists.{tab};
ghost use Rattle.classes.specs.Classes.{x_count};
ghost use Rattle.calendar.specs.Periods.{TakenPeriod};
ghost use Rattle.coldstart.specs.ColdStart.{Climate, cold_values, SmallSums, pairs, slopes, temperature_ok, with_month, x_of_sums};

use calendar::Period;

// p and q of the ratio cold to hot: for each fuel CO, NOX, VOC, PM, FC. An entry that is none is 0, 0.
const SLOPES: [[u64; 2]; 15] = [
    [37000, 90],
    [11400, 6],
    [28000, 60],
    [0, 0],
    [14700, 9],
    [19000, 30],
    [13000, 13],
    [31000, 90],
    [31000, 100],
    [13400, 8],
    [36600, 90],
    [9800, 6],
    [22400, 60],
    [0, 0],
    [14700, 9],
];

// The 15 sums with a month whose weight × share is b, at the temperature t. They go over and back by value: through a `&mut`,
// which was proved too, the values X of a head took 155 ns in place of 138.
fn with_month(table: &[[u64; 2]; 15], sums: [u64; 15], b: u64, t: i64) -> [u64; 15]
    requires { (table.now ≡ pairs slopes) × SmallSums sums × (b ≤ 2800000000) × (temperature_ok t ≡ true) }
    ensures { result ≡ tab (with_month sums b t) 15 }
{
    let mut r = sums;
    for (i, [p, q]) in table.iter().enumerate() {
        r[i] += b * coldstart::cold_excess(*p, *q, t);
    }
    r
}

// The 16 values X of the sums over the months of a period of this weight, half up; the last is that of CO of class 3.
fn quotients(sums: [u64; 15], weight: u64) -> [u64; 16]
    requires { SmallSums sums × (0 < weight) × (weight ≤ 366) }
    ensures { result ≡ tab (x_of_sums weight sums) x_count }
{
    let half = weight * 500;
    let mut x = [0u64; 16];
    for (i, sum) in sums.iter().enumerate() {
        x[i] = (*sum + half) / (half * 2);
    }
    let half = weight * 50000;
    x[15] = (sums[0] * 72 + half) / (half * 2);
    x
}

// The same: without dates, the usual case, the weight is 12, and a divisor that the compiler knows needs no division.
fn rounded(sums: [u64; 15], weight: u64) -> [u64; 16]
    requires { SmallSums sums × (0 < weight) × (weight ≤ 366) }
    ensures { result ≡ tab (x_of_sums weight sums) x_count }
{
    if weight == 12 {
        return quotients(sums, 12);
    }
    quotients(sums, weight)
}

// The 16 values X from the table: months outside, so that the share is computed once for each.
fn values_of(table: &[[u64; 2]; 15], l: u64, temps: &[i64; 12], period: Period) -> [u64; 16]
    requires { (table.now ≡ pairs slopes) × Climate l temps.now × TakenPeriod period }
    ensures { result ≡ cold_values period l temps.now }
{
    let weights = calendar::weights_of(period);
    let months = weights.months;
    let mut sums = [0u64; 15];
    for (k, t) in temps.iter().enumerate() {
        let weight = months[k];
        // A month outside the period adds nothing.
        if weight == 0 {
            continue;
        }
        let share = coldstart::cold_share(l, *t);
        // A local of its own: the prover takes no call that writes the array that it reads.
        let next = with_month(table, sums, weight * share, *t);
        sums = next;
    }
    rounded(sums, weights.whole)
}

// The 16 values X of a head: for each fuel CO, NOX, VOC, PM, FC, then CO of class 3.
pub fn cold_values(l: u64, temps: &[i64; 12], period: Period) -> [u64; 16]
    requires { Climate l temps.now × TakenPeriod period }
    ensures { result ≡ cold_values period l temps.now }
{
    values_of(&SLOPES, l, temps, period)
}
