// Numbers as fields of a text: right-justified with spaces in so many bytes.
#![tactic(auto)]

ghost use Rattle.std.specs.Prelude.{◌≡◌, length};
ghost use Rattle.text.specs.Render.{glyph_of, render};

// The last digit of a number that may have run out: a space for 0.
fn glyph(n: u64) -> u8
    ensures { result ≡ glyph_of n }
{
    if n == 0 { b' ' } else { b'0' + (n % 10) as u8 }
}

// Fills the field with the number; n is no place in f.
#[tactic(auto, using(crate::proofs::Write::empty, crate::proofs::Write::turn))]
pub fn write_number(f: &mut [u8], n: u64)
    ensures { f.new ≡ render (length f.old) n }
{
    if f.is_empty() {
        return;
    }
    // by places: `[rest @ .., last]` of a lent slice, tried, is a reborrow that Rattle's borrow checker does not cover yet
    let last = f.len() - 1;
    f[last] = b'0' + (n % 10) as u8;
    let mut m = n / 10;
    for i in (0..last).rev() {
        f[i] = glyph(m);
        m /= 10;
    }
}
