// Lines.
ghost use Rattle.std.specs.Prelude.{◌≡◌, ◌==◌, position};
ghost use Rattle.rules.specs.Calls.{line_at};
ghost use Rattle.text.specs.FirstLine.{first_line, line_from};

// What was taken from the front of a text, and the text behind it.
#[derive(Clone, Copy)]
pub struct Taken<'a, T> {
    pub value: T,
    pub rest: &'a [u8],
}

impl<'a, T> Taken<'a, T> {
    // Another value, and the same text behind it.
    pub fn with<U>(&self, value: U) -> Taken<'a, U>
        ensures { (result.value ≡ value) × (result.rest.now ≡ self.now.rest.now) }
    {
        Taken {
            value,
            rest: self.rest,
        }
    }
}

// The place of the first LF.
fn first_lf(text: &[u8]) -> Option<usize>
    ensures { result ≡ position (λ b. b == 10) text.now }
{
    text.iter().position(|b| *b == b'\n')
}

// The part of `text` before its first LF, all of it where there is none.
fn first_line(text: &[u8]) -> &[u8]
    ensures { result.now ≡ first_line text.now }
{
    match first_lf(text) {
        Some(n) => &text[..n],
        None => text,
    }
}

// The line at a place counted from 0, without its LF; empty where there is none.
fn line_from(text: &[u8], n: u64) -> &[u8]
    ensures { result.now ≡ line_from text.now n }
{
    let mut rest = text;
    for _k in 0..n {
        let len = first_line(rest).len();
        if rest.len() <= len {
            return &rest[..0];
        }
        rest = &rest[len + 1..];
    }
    first_line(rest)
}

// The line of a number counted from 1, without its LF; empty for 0, and where there is none.
pub fn line_at(text: &[u8], k: u64) -> &[u8]
    ensures { result.now ≡ line_at text.now k }
{
    if k == 0 {
        return &text[..0];
    }
    line_from(text, k - 1)
}
