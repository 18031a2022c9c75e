// The calls for C, Rust and Python that write a report into a lent buffer. An answer is a number and values.
#![tactic(auto)]

ghost use Rattle.std.specs.Prelude.{◌≡◌};
ghost use Rattle.listing.specs.Report.{reported_answer, report_of, report_buffer};
ghost use Rattle.reporting.specs.Reporting.{text_buffer};
ghost use Rattle.capi_texts.specs.Answers.{length_answer, text_answer, sheet_text_answer};

use inventory::Run;
use reporting::SheetText;
use units::Refusal;

// A number, 0 where it is written, and a length in bytes: C has no Result, so a match makes a number of each case.
#[repr(C)]
#[derive(Clone, Copy)]
pub struct LengthAnswer {
    pub number: u64,
    pub bytes: usize,
}

impl From<Result<usize, Refusal>> for LengthAnswer {
    ghost from_gives = { λ x y. y ≡ length_answer (reported_answer x) };

    #[tactic(auto, unfolding(listing::specs::Report::reported_answer))]
    fn from(answer: Result<usize, Refusal>) -> LengthAnswer {
        match answer {
            Ok(bytes) => LengthAnswer { number: 0, bytes },
            Err(r) => LengthAnswer {
                number: units::refusal_number(r),
                bytes: 0,
            },
        }
    }
}

// A number, 0 where the text is written, its length in bytes, and the sheet's own number and line: C has no Result.
#[repr(C)]
#[derive(Clone, Copy)]
pub struct TextAnswer {
    pub number: u64,
    pub bytes: usize,
    pub sheet: u64,
    pub line: usize,
}

impl From<SheetText> for TextAnswer {
    ghost from_gives = { λ x y. y ≡ sheet_text_answer x };

    #[tactic(auto, unfolding(reporting::specs::Reporting::bad_number, reporting::specs::Reporting::bad_line))]
    fn from(answer: SheetText) -> TextAnswer {
        let written = LengthAnswer::from(answer.text);
        match answer.sheet {
            Ok(()) => TextAnswer {
                number: written.number,
                bytes: written.bytes,
                sheet: 0,
                line: 0,
            },
            Err(bad) => TextAnswer {
                number: written.number,
                bytes: written.bytes,
                sheet: units::refusal_number(bad.reason),
                line: bad.line,
            },
        }
    }
}

#[unsafe(no_mangle)]
pub extern "C" fn haldurap_report(run: Run, buffer: &mut [u8]) -> LengthAnswer
    ensures answer { result ≡ length_answer (report_of run buffer.old) }
    ensures bytes { buffer.new ≡ report_buffer run buffer.old }
{
    LengthAnswer::from(listing::write_report(&run, buffer))
}

#[unsafe(no_mangle)]
pub extern "C" fn haldurap_report_sheet(text: &[u8], buffer: &mut [u8]) -> TextAnswer
    ensures answer { result ≡ text_answer text.now buffer.old }
    ensures bytes { buffer.new ≡ text_buffer text.now buffer.old }
{
    TextAnswer::from(reporting::report_sheet(text, buffer))
}
