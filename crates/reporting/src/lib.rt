// The text of a sheet to the text of its report.
#![tactic(auto)]

ghost use Rattle.std.specs.Prelude.{◌≡◌};
ghost use Rattle.units.specs.Refusals.{refusal_number};
ghost use Rattle.listing.specs.Report.{reported_answer};
ghost use Rattle.reporting.specs.Reporting.{refused_line, placed, answer_for, bad_number, bad_line, text_number, text_line, text_of, text_buffer};

use sheet::BadLine;
use units::Refusal;

// The length of a sheet's text or the refusal of the buffer, and whether the sheet itself was taken.
#[derive(Clone, Copy)]
pub struct SheetText {
    pub text: Result<usize, Refusal>,
    pub sheet: Result<(), BadLine>,
}

// The line of a refused sheet in a lent buffer.
fn write_refused(buffer: &mut [u8], bad: BadLine) -> Result<usize, Refusal>
    ensures answer { reported_answer result ≡ answer_for (refused_line (refusal_number bad.reason) bad.line) buffer.old }
    ensures bytes { buffer.new ≡ placed (refused_line (refusal_number bad.reason) bad.line) buffer.old }
{
    if buffer.len() < 17 {
        return Err(Refusal::ShortBuffer);
    }
    buffer[0..7].copy_from_slice(b"REFUSED");
    text::write_number(&mut buffer[7..10], units::refusal_number(bad.reason));
    text::write_number(&mut buffer[10..16], bad.line as u64);
    buffer[16] = b'\n';
    Ok(17)
}

// Reads a sheet and writes its report, or the line of its refusal, into a lent buffer.
pub fn report_sheet(text: &[u8], buffer: &mut [u8]) -> SheetText
    ensures answer { reported_answer result.text ≡ text_of text.now buffer.old }
    ensures number { bad_number result.sheet ≡ text_number text.now }
    ensures line { bad_line result.sheet ≡ text_line text.now }
    ensures bytes { buffer.new ≡ text_buffer text.now buffer.old }
{
    if 65536 < text.len() {
        let long = BadLine {
            reason: Refusal::LineShape,
            line: 1,
        };
        return SheetText {
            text: write_refused(buffer, long),
            sheet: Err(long),
        };
    }
    match sheet::read_sheet(text) {
        Ok(run) => SheetText {
            text: listing::write_report(&run, buffer),
            sheet: Ok(()),
        },
        Err(bad) => SheetText {
            text: write_refused(buffer, bad),
            sheet: Err(bad),
        },
    }
}
