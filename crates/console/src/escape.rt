// Bytes shown by printable ASCII, so that no text can send control codes to a terminal. The library's escape_ascii would put a backslash before
// quotes too, and spell a tab and a line's end by letters.
ghost use Rattle.std.specs.Prelude.{◌≡◌, true, ◌∷◌, ℕ, ◌*◌, ◌≤◌, ◌<◌, length, get_or};
ghost use Rattle.io.specs.Counts.{IsPrefixLen};
ghost use Rattle.io.specs.Digits.{hex_digit_ascii, last_digits};
ghost use Rattle.text.specs.Wrote.{Wrote};
ghost use Rattle.console.specs.Escaped.{printable, escaped_byte, escaped};

use std::io::Result;

fn hex_digit(d: u8) -> u8
    requires { d < 16 }
    ensures { result ≡ hex_digit_ascii d }
{
    if d < 10 { 48 + d } else { 87 + d }
}

// Writes `\xNN` at the front of `out`.
fn escape_hex(b: u8, out: &mut [u8]) -> usize
    requires { 4 ≤ length out.old }
    ensures { Wrote (92 ∷ 120 ∷ last_digits 16 2 b) result out.old out.new }
{
    out[0] = b'\\';
    out[1] = b'x';
    out[2] = hex_digit(b / 16 % 16);
    out[3] = hex_digit(b % 16);
    4
}

// Writes one byte, escaped, at the front of `out`, and returns how many bytes that takes.
fn escape_byte(b: u8, out: &mut [u8]) -> usize
    requires { 4 ≤ length out.old }
    ensures { Wrote (escaped_byte b) result out.old out.new }
{
    match b {
        b'\\' => {
            out[0] = b'\\';
            out[1] = b'\\';
            2
        }
        b' '..=b'~' => {
            out[0] = b;
            1
        }
        _ => escape_hex(b, out),
    }
}

// Writes a text, escaped, at the front of `out`, and returns how many bytes that takes. All of them are printable.
fn escape(text: &[u8], out: &mut [u8]) -> usize
    requires { 4 * length text.now ≤ length out.old }
    ensures wrote { Wrote (escaped text.now) result out.old out.new }
    ensures by_index { (k : ℕ) → k < result → printable (get_or out.new k 0) ≡ true }
    ensures prefix_len { IsPrefixLen result out.new }
{
    let mut at = 0;
    for b in text {
        at += escape_byte(*b, &mut out[at..]);
    }
    at
}

// Writes a part of a text, escaped; all of it is written, or the reason returned. The buffer has 4 bytes for each of 1024.
fn write_part(to: &impl Print, part: &[u8]) -> Result<()>
    requires { length part.now ≤ 1024 }
{
    let mut out = io::buffer();
    let n = escape(part, &mut out);
    to.write_all(&out[..n])
}

// Writes a text, escaped, to standard output or standard error; stops at the first write that fails, and returns why it failed.
pub fn write_escaped(to: &impl Print, text: &[u8]) -> Result<()> {
    for part in text.chunks(1024) {
        write_part(to, part)?;
    }
    Ok(())
}
