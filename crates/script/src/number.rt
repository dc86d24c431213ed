//! Numbers of a line: decimal digits, of which only 0 itself begins with 0.

ghost use Rattle.std.specs.Prelude.{◌≡◌, ◌<◌, length, decimal, slice_index};
ghost use Rattle.script.specs.Fields.{IsSize};
ghost use Rattle.script.specs.Reads.{Reads};

/// No number of a line is larger: the most bytes of a text that a line announces.
const MOST: usize = 65_536;

/// The number that the digits stand for.
fn value(digits: &[u8]) -> Option<usize>
    requires some { 0 < length digits.now }
    requires plain { slice_index digits.now 0 ≡ 48 → length digits.now ≡ 1 }
    ensures { Reads IsSize decimal digits.now result }
{
    let mut n = 0;
    for byte in digits {
        if !byte.is_ascii_digit() {
            return None;
        }
        n = n * 10 + usize::from(*byte - b'0');
        if n > MOST {
            return None;
        }
    }
    Some(n)
}

/// The number of this text, unless it is above `MOST`.
pub fn number(text: &[u8]) -> Option<usize>
    ensures { Reads IsSize decimal text.now result }
{
    match text {
        [] | [b'0', _, ..] => None,
        _ => value(text),
    }
}
