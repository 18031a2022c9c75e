// The report of a run, written into a lent buffer.
#![tactic(auto)]

ghost use Rattle.std.specs.Prelude.{◌≡◌, length};
ghost use Rattle.listing.specs.Report.{lines_of, reported_answer, report_of, report_buffer};
ghost use Rattle.listing.specs.Claim.{WidthClaim};

use figures::Figures;
use inventory::Run;
use units::Refusal;

// The length of the report.
fn report_length(f: &Figures) -> usize
    ensures { result ≡ length (lines_of f.now) }
{
    let mut n = 0;
    for row in &f.rows {
        n += report_lines::line_length(*row);
    }
    n
}

// All lines, over the bytes that are the report.
fn write_lines(report: &mut [u8], f: &Figures)
    requires { length report.old ≡ length (lines_of f.now) }
    ensures { report.new ≡ lines_of f.now }
{
    let mut at = 0;
    for (k, row) in f.rows.iter().enumerate() {
        let n = report_lines::line_length(*row);
        report_lines::write_line(&mut report[at..at + n], k, *row);
        at += n;
    }
}

// The report of a run at the buffer's start, and its length in bytes; or the refusal, and the buffer as it was.
pub fn write_report(run: &Run, buffer: &mut [u8]) -> Result<usize, Refusal>
    ensures answer { reported_answer result ≡ report_of run.now buffer.old }
    ensures bytes { buffer.new ≡ report_buffer run.now buffer.old }
{
    if !order::in_order(run) {
        return Err(Refusal::RunOrder);
    }
    let f = figures::figures_of(run);
    let n = report_length(&f);
    if buffer.len() < n {
        return Err(Refusal::ShortBuffer);
    }
    write_lines(&mut buffer[..n], &f);
    Ok(n)
}

// Does nothing: its contract is that width 18 cuts no printed figure.
pub fn width_claim()
    ensures { WidthClaim }
{}
