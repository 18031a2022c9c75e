// The text of the bytes that a program has read, for the program `report`.
#![tactic(auto)]

ghost use Rattle.std.specs.Prelude.{◌≡◌, ◌≤◌, length, take};
ghost use Rattle.listing.specs.Report.{reported_answer, written};
ghost use Rattle.reporting.specs.Reporting.{sheet_text, text_of, text_buffer};
ghost use Rattle.input_text.specs.Claim.{TextClaim};

use units::Refusal;

// The text of the first bytes of an input, or of all where it has fewer.
fn report_first(input: &[u8], read: usize, buffer: &mut [u8]) -> Result<usize, Refusal>
    ensures answer { reported_answer result ≡ text_of (take read input.now) buffer.old }
    ensures bytes { buffer.new ≡ text_buffer (take read input.now) buffer.old }
{
    if read < input.len() {
        return reporting::report_sheet(&input[..read], buffer).text;
    }
    reporting::report_sheet(input, buffer).text
}

// The text of the bytes that a program has read; the sizes are types, so that a program with another size does not compile.
pub fn report_input(input: &[u8; 65537], read: usize, text: &mut [u8; 1455]) -> usize
    ensures length { result ≡ length (sheet_text (take read input.now)) }
    ensures most { result ≤ 1455 }
    ensures bytes { text.new ≡ written (sheet_text (take read input.now)) text.old }
{
    report_first(input, read, text).unwrap_or(0)
}

// Does nothing: its contract is that every text fits in 1,455 bytes, and that the widths of the line REFUSED cut nothing.
pub fn text_claim()
    ensures { TextClaim }
{}
