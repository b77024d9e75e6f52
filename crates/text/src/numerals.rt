// Numerals: decimal digits, at most `MAX_DIGITS` of them when read, with no leading zero. What is read is the number whose decimal digits
// they are (`NumberLaw` of crate rules).
ghost use Rattle.std.specs.Prelude.{◌≡◌, ◌≤◌, false, length, MatchOption};
ghost use Rattle.rules.specs.Text.{decimal, digits_of, numeral};
ghost use Rattle.text.specs.Numerals.{Summed, Spelled};
ghost use Rattle.text.specs.Wrote.{Wrote};

use rules::Board;

// A number at the front of a text, and how many digits spell it.
#[derive(Clone, Copy)]
pub struct Numeral {
    pub value: u64,
    pub size: usize,
}

// What a text's first digits spell: nothing where a zero leads others.
fn spelled(text: &[u8], value: u64, size: usize) -> Option<Numeral>
    requires { Summed text.now value size }
    ensures { MatchOption result (numeral (digits_of text.now) ≡ false) (λ r. Spelled text.now r.value r.size) }
{
    if size == 0 {
        return None;
    }
    if 1 < size && text[0] == b'0' {
        return None;
    }
    Some(Numeral { value, size })
}

// The number at the front of `text`.
pub fn number(text: &[u8]) -> Option<Numeral>
    ensures { MatchOption result (numeral (digits_of text.now) ≡ false) (λ r. Spelled text.now r.value r.size) }
{
    let mut value = 0;
    for (n, b) in text.iter().enumerate() {
        if !b.is_ascii_digit() {
            return spelled(text, value, n);
        }
        if n == Board::MAX_DIGITS {
            return None;
        }
        value = value * 10 + u64::from(*b - b'0');
    }
    spelled(text, value, text.len())
}

// How many digits a number has.
pub fn number_size(value: u64) -> usize
    ensures { result ≡ length (decimal value) }
{
    let mut n = 1;
    let mut v = value;
    // no range: the number falls by its last digit
    while 10 <= v {
        v /= 10;
        n += 1;
    }
    n
}

// Writes a number at the front of `out`, and returns how many bytes that takes.
pub fn write_number(out: &mut [u8], value: u64) -> usize
    requires { length (decimal value) ≤ length out.old }
    ensures { Wrote (decimal value) result out.old out.new }
{
    let n = number_size(value);
    let mut v = value;
    for k in (0..n).rev() {
        out[k] = b'0' + (v % 10) as u8;
        v /= 10;
    }
    n
}
