// One line of the report, written over the bytes that are the line.
#![tactic(auto)]

ghost use Rattle.std.specs.Prelude.{◌≡◌, ℕ, ◌<◌, length};
ghost use Rattle.report_lines.specs.Line.{name_of, line_of, line_at};

use figures::Row;

// The name of a quantity, which counts from 0. Quantities and fuels are numbers here and below, since k counts the rows of all of
// them: enums would be made of k by two matches like this one.
fn name_of(quantity: usize) -> [u8; 4]
    requires { quantity < 5 }
    ensures { result ≡ name_of quantity }
{
    match quantity {
        0 => *b"  CO",
        1 => *b" NOX",
        2 => *b" VOC",
        3 => *b"  PM",
        _ => *b"  FC",
    }
}

// Writes a line whose total is not 0; the fuel counts from 1, the quantity from 0.
fn write_figures(line: &mut [u8], fuel: u64, quantity: usize, row: Row)
    requires quantity_bound { quantity < 5 }
    requires whole { length line.old ≡ 97 }
    ensures { line.new ≡ line_of fuel quantity row }
{
    text::write_number(&mut line[0..2], fuel);
    let name = name_of(quantity);
    line[2..6].copy_from_slice(&name);
    text::write_number(&mut line[6..24], row.urban.0);
    text::write_number(&mut line[24..42], row.rural.0);
    text::write_number(&mut line[42..60], row.highway.0);
    text::write_number(&mut line[60..78], row.cold.0);
    text::write_number(&mut line[78..96], row.total.0);
    line[96] = b'\n';
}

// The length of a line, whichever it is; a total of 0 is left out.
pub fn line_length(row: Row) -> usize
    ensures { (k : ℕ) → result ≡ length (line_at k row) }
{
    if row.total.0 == 0 { 0 } else { 97 }
}

// Writes line k over the bytes that are the line; a total of 0 is left out.
pub fn write_line(line: &mut [u8], k: usize, row: Row)
    requires k_bound { k < 15 }
    requires whole { length line.old ≡ length (line_at k row) }
    ensures { line.new ≡ line_at k row }
{
    if row.total.0 != 0 {
        write_figures(line, (k / 5 + 1) as u64, k % 5, row);
    }
}
