// The numbers of a line of a sheet: the head of line 1, and the record of any other line.
#![tactic(auto)]

ghost use Rattle.std.specs.Prelude.{◌≡◌, false, ◌+◌, ◌≤◌, [], ◌∷◌, ◌++◌, length, take, drop, replicate, option_and_then, option_map};
ghost use Rattle.lines.specs.Lines.{lines, first_of, head_widths, fields, numbers_in};
ghost use Rattle.lines.specs.Records.{head_over, head_of, record_of};
ghost use Rattle.lines.specs.Reading.{head_line};

use calendar::{Days, Period};
use inventory::{Head, Record, Shares};
use units::{Speed, Speeds};

// A head, and the bytes of its line with LF: a length and not the rest of the text, so that the struct borrows nothing.
#[derive(Clone, Copy)]
pub struct HeadLine {
    pub head: Head,
    pub size: usize,
}

// The twelve temperatures behind L.
fn temps_in(s: &[u8]) -> Option<[i64; 12]>
    requires { 65 ≤ length s.now }
    ensures { result ≡ numbers_in (fields (replicate 12 5) (drop 5 s.now)) }
{
    let mut temps = [0i64; 12];
    // by place, as the form of the line has them: chunks would say the place of each once more
    for j in 0..12 {
        let at = 5 * j + 5;
        temps[j] = fields::read_number(&s[at..at + 5])?;
    }
    Some(temps)
}

// The head over a period in the first 65 bytes of a line.
fn head_over(s: &[u8], period: Period) -> Option<Head>
    requires { 65 ≤ length s.now }
    ensures { result ≡ option_and_then (head_over period) (numbers_in (fields (head_widths false) s.now)) }
{
    let trip = fields::read_count(&s[..5])?;
    let temps = temps_in(s)?;
    Some(Head {
        trip,
        temps,
        period,
    })
}

// The head of line 1: 13 numbers with LF behind them, or 15. LF is no byte of a number, so no other place is searched for it.
pub fn head_line(s: &[u8]) -> Option<HeadLine>
    ensures { result ≡ option_map (head_line (length (first_of (lines s.now)))) (head_of (first_of (lines s.now))) }
{
    if s.len() < 66 {
        return None;
    }
    if s[65] == b'\n' {
        let head = head_over(s, Period::Year)?;
        return Some(HeadLine { head, size: 66 });
    }
    if s.len() < 84 || s[83] != b'\n' {
        return None;
    }
    let first = fields::read_count(&s[65..74])?;
    let last = fields::read_count(&s[74..83])?;
    let head = head_over(s, Period::Days(Days { first, last }))?;
    Some(HeadLine { head, size: 84 })
}

// The record of a line with its LF: none where its shape is wrong, or a field is no number without a minus.
#[tactic(auto, using(crate::proofs::Counts::not_41, crate::proofs::Counts::not_ended, crate::proofs::Counts::record_said))]
pub fn record_in(line: &[u8]) -> Option<Record>
    ensures { result ≡ record_of line.now }
{
    if line.len() != 41 || line[40] != b'\n' {
        return None;
    }
    Some(Record {
        class: fields::read_count(&line[..2])?,
        vehicles: fields::read_count(&line[2..9])?,
        km: fields::read_count(&line[9..16])?,
        shares: Shares {
            urban: fields::read_count(&line[16..20])?,
            rural: fields::read_count(&line[20..24])?,
            highway: fields::read_count(&line[24..28])?,
        },
        speeds: Speeds {
            urban: Speed(fields::read_count(&line[28..32])?),
            rural: Speed(fields::read_count(&line[32..36])?),
            highway: Speed(fields::read_count(&line[36..40])?),
        },
    })
}

// The record in the 40 bytes from a place on, whatever stands behind them.
pub fn record_at(s: &[u8], at: usize) -> Option<Record>
    requires { at + 40 ≤ length s.now }
    ensures { result ≡ record_of (take 40 (drop at s.now) ++ (10 ∷ [])) }
{
    let mut line = [b'\n'; 41];
    line[..40].copy_from_slice(&s[at..at + 40]);
    record_in(&line)
}
