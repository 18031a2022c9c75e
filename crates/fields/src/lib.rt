// Fields of a text read as numbers: right-justified with spaces, without leading zeros.
#![tactic(auto)]

ghost use Rattle.std.specs.Prelude.{◌≡◌};
ghost use Rattle.fields.specs.Field.{parse, count_in};
ghost use Rattle.fields.specs.Reading.{digits_said, begun, Spaces};

// A field without the spaces before its first other byte.
#[tactic(auto, unfolding(crate::specs::Field::scan))]
fn behind_spaces(f: &[u8]) -> &[u8]
    ensures { Spaces f.now result.now }
{
    let mut rest = f;
    // goes by what is left and counts nothing; std's `trim_ascii_start` would drop other white space too
    while let [b' ', behind @ ..] = rest {
        rest = behind;
    }
    rest
}

// The number that digits alone write, at most nine of them: so it fits without a test in each turn.
#[tactic(auto, using(crate::proofs::Read::none_said, crate::proofs::Read::long_said, crate::proofs::Read::zero_said, crate::proofs::Read::turn_bad, crate::proofs::Read::turned))]
fn digits_of(f: &[u8]) -> Option<u32>
    ensures { digits_said result ≡ begun f.now }
{
    match f {
        [] => return None,
        [b'0', ..] => return (f.len() == 1).then_some(0),
        _ if 9 < f.len() => return None,
        _ => {}
    }
    let mut n: u32 = 0;
    for d in f {
        if !d.is_ascii_digit() {
            return None;
        }
        n = n * 10 + u32::from(*d - b'0');
    }
    Some(n)
}

// Reads a field without sign: a minus is no digit.
pub fn read_count(f: &[u8]) -> Option<u64>
    ensures { result ≡ count_in f.now }
{
    let digits = behind_spaces(f);
    let n = digits_of(digits)?;
    Some(u64::from(n))
}

// Reads a field.
pub fn read_number(f: &[u8]) -> Option<i64>
    ensures { result ≡ parse f.now }
{
    let f = behind_spaces(f);
    match f {
        [] => None,
        [b'-', behind @ ..] => {
            let n = digits_of(behind)?;
            (n != 0).then_some(-i64::from(n))
        }
        _ => {
            let n = digits_of(f)?;
            Some(i64::from(n))
        }
    }
}
