// Forms: lines in which `#` stands for a number.
ghost use Rattle.std.specs.Prelude.{◌≡◌, ◌++◌, true, drop, MatchOption};
ghost use Rattle.rules.specs.Text.{starts_with};
ghost use Rattle.text.specs.Cut.{lineless, Parted, nothing, scan_ended, Cut};
ghost use Rattle.text.specs.FirstLine.{first_line, Passed};

use crate::lines::Taken;
use crate::numerals::number;

// What a form finds at the front of a text: the text's first line, without its LF, that line's first four numbers, 0 for each that the form
// does not have, and the text behind the LF. The line is handed on as a part of the text, a form that document 01
// names for the line cutter, though the readers need its numbers alone.
#[derive(Clone, Copy)]
pub struct Found<'a> {
    pub line: &'a [u8],
    pub numbers: [u64; 4],
    pub rest: &'a [u8],
}

impl<'a> Found<'a> {
    // A value that was read of the line, and the text behind the line.
    pub fn with<T>(&self, value: T) -> Taken<'a, T>
        ensures { (result.value ≡ value) × (result.rest.now ≡ self.now.rest.now) }
    {
        Taken {
            value,
            rest: self.rest,
        }
    }
}

// Whether the byte `b` stands at a place of `text`.
fn stands(b: u8, text: &[u8], at: usize) -> bool
    ensures { result ≡ starts_with b (drop at text.now) }
{
    text.get(at) == Some(&b)
}

// What the first line of `text` holds, if it has the form from `start` on.
fn line_behind<'a>(start: usize, form: &[u8], text: &'a [u8]) -> Option<Found<'a>>
    requires start_passed { Passed first_line text.now start }
    requires form_lineless { lineless form.now ≡ true }
    ensures { MatchOption result (scan_ended form.now (drop start text.now) ≡ nothing)
        (λ f. Cut (scan_ended form.now (drop start text.now)) text.now f.line.now f.numbers f.rest.now) }
{
    let mut numbers = [0; 4];
    let mut at = start;
    let mut count = 0;
    for sign in form {
        if *sign == b'#' {
            let read = number(&text[at..])?;
            if count < numbers.len() {
                numbers[count] = read.value;
            }
            at += read.size;
            count += 1;
        } else {
            if !stands(*sign, text, at) {
                return None;
            }
            at += 1;
        }
    }
    if !stands(b'\n', text, at) {
        return None;
    }
    Some(Found {
        line: &text[..at],
        numbers,
        rest: &text[at + 1..],
    })
}

// What the first line of `text` holds, if LF ends it and it has the form `word` with `form` behind it.
pub fn line_by<'a>(word: &[u8], form: &[u8], text: &'a [u8]) -> Option<Found<'a>>
    requires { Parted word.now form.now }
    ensures { MatchOption result (scan_ended (word.now ++ form.now) text.now ≡ nothing)
        (λ f. Cut (scan_ended (word.now ++ form.now) text.now) text.now f.line.now f.numbers f.rest.now) }
{
    if !text.starts_with(word) {
        return None;
    }
    line_behind(word.len(), form, text)
}
