// The program `report`: a sheet on standard input to its report on standard output; what fails is told on standard error.
#![tactic(auto)]

ghost use Rattle.std.specs.Prelude.{ℕ, ◌≤◌, ◌<◌, length, take, IfOk, IfSome, OnOk, OnErr};
ghost use Rattle.std.specs.Io.KnownBytes.{Appends, Consumes, IsAtEnd};
ghost use Rattle.reporting.specs.Reporting.{sheet_text};
ghost use Rattle.report.specs.Prints.{Prints};

use std::io;
use std::io::{ErrorKind, Read, Write};

// So often at most an interrupted call is tried again.
const TRIES: usize = 1000000;

// Reads until the input ends or the bytes are full; how many came. A loop of its own: std's read_to_end needs a Vec, and read_exact
// does not tell how many came.
fn read_input<R: Read>(reader: &mut R, input: &mut [u8]) -> io::Result<usize>
    ensures within { IfOk result (λ n. n ≤ length input.new) }
    ensures bytes { IfOk result (λ n. Consumes (R.remaining reader.old) (R.remaining reader.new) (take n input.new)) }
    ensures end { IfOk result (λ n. n < length input.new → IsAtEnd (R.remaining reader.new)) }
{
    let mut n: usize = 0;
    let mut tries = TRIES;
    while n < input.len() {
        match reader.read(&mut input[n..]) {
            Ok(0) => return Ok(n),
            Ok(came) => n += came,
            Err(e) => {
                if e.kind() != ErrorKind::Interrupted || tries == 0 {
                    return Err(e);
                }
                tries -= 1;
            }
        }
    }
    Ok(n)
}

// Writes the whole text, or a part before a write that fails or takes no byte. A loop of its own: std's write_all says nothing of
// what was written before an error.
fn write_text<W: Write>(writer: &mut W, text: &[u8]) -> io::Result<()>
    ensures whole { OnOk result (Appends (W.contents writer.old) (W.contents writer.new) text.now) }
    ensures part { OnErr result ((n : ℕ) × Appends (W.contents writer.old) (W.contents writer.new) (take n text.now)) }
{
    let mut n: usize = 0;
    let mut tries = TRIES;
    while n < text.len() {
        match writer.write(&text[n..]) {
            Ok(0) => return Err(io::Error::new(ErrorKind::WriteZero, "no byte was taken")),
            Ok(went) => n += went,
            Err(e) => {
                if e.kind() != ErrorKind::Interrupted || tries == 0 {
                    return Err(e);
                }
                tries -= 1;
            }
        }
    }
    Ok(())
}

// What failed, and why: one of two errors, and no value beside an error as in a Result.
#[derive(Clone, Copy)]
enum Trouble {
    Reading(io::Error),
    Writing(io::Error),
}

// The text of the bytes that were read, to the writer.
fn write_report<W: Write>(writer: &mut W, input: &[u8; 65537], read: usize) -> Result<(), Trouble>
    ensures { Prints (W.contents writer.old) (W.contents writer.new) (sheet_text (take read input.now)) result }
{
    let mut text = [0u8; 1455];
    let n = input_text::report_input(input, read, &mut text);
    write_text(writer, &text[..n]).map_err(Trouble::Writing)
}

// The text of what the reader gives, to the writer.
fn report<R: Read, W: Write>(reader: &mut R, writer: &mut W) -> Result<(), Trouble>
    ensures { IfSome (R.remaining reader.old) (λ bytes. Prints (W.contents writer.old) (W.contents writer.new) (sheet_text (take 65537 bytes)) result) }
{
    let mut input = [0u8; 65537];
    let n = read_input(reader, &mut input).map_err(Trouble::Reading)?;
    write_report(writer, &input, n)
}

// Says on standard error what failed, and the system's reason without its number.
fn tell(rt: &(impl Eprint + AllocGlobal), what: &str, e: io::Error) -> io::Result<()> {
    if let Ok(said) = format!(in rt.alloc(); "{e}") {
        if let Some((reason, _)) = said.split_once(" (os error ") {
            return eprintln!(rt; "report: {what}: {reason}");
        }
    }
    eprintln!(rt; "report: {what}: {e}")
}

fn main(rt: HostRuntime) -> io::Result<()> {
    match report(&mut rt.stdin(), &mut rt.stdout()) {
        Ok(()) => Ok(()),
        Err(Trouble::Reading(e)) => tell(&rt, "reading standard input", e),
        Err(Trouble::Writing(e)) => tell(&rt, "writing standard output", e),
    }
}
