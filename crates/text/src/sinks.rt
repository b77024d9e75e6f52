// Where lines go: into lent bytes, each behind the lines already laid down, or nowhere, where their bytes are only counted.
ghost use Rattle.std.specs.Prelude.{◌≡◌, ◌+◌, ◌^◌, ◌<◌, ◌≤◌, ◌++◌, ℕ, List, [], ◌∷◌, length, get_or, refl};
ghost use Rattle.std.proofs.Common.{◌∙◌};
ghost use Rattle.rules.specs.Text.{lf, decimal, fill};
ghost use Rattle.text.specs.Wrote.{Wrote};
ghost use Rattle.text.specs.Laid.{Lawful, LaidBetween, counted, counted_none, counted_more, counted_left, page_none, page_more, page_front, page_left};

use crate::numerals::{number_size, write_number};

// The value at a place, 0 past the last.
fn value_at(values: &[u64], k: usize) -> u64
    ensures { result ≡ get_or values.now k 0 }
{
    values.get(k).copied().unwrap_or(0)
}

pub trait Sink {
    // there is room for a text
    ghost room: { Self → List ℕ → Type 0 };

    // a text was laid down behind what lay there
    ghost laid: { Self → List ℕ → Self → Type 0 };

    // One byte.
    fn byte(&mut self, byte: u8)
        requires { room self.old (byte ∷ []) }
        ensures { laid self.old (byte ∷ []) self.new };

    // A number.
    fn number(&mut self, value: u64)
        requires { room self.old (decimal value) }
        ensures { laid self.old (decimal value) self.new };

    // A form with its numbers.
    fn form(&mut self, form: &[u8], values: &[u64])
        requires { room self.old (fill form.now values.now) }
        ensures { laid self.old (fill form.now values.now) self.new }
    {
        let mut k = 0;
        for sign in form {
            if *sign == b'#' {
                self.number(value_at(values, k));
                k += 1;
            } else {
                self.byte(*sign);
            }
        }
    }

    // A form with its numbers, and LF.
    fn line(&mut self, form: &[u8], values: &[u64])
        requires { room self.old (fill form.now values.now ++ lf) }
        ensures { laid self.old (fill form.now values.now ++ lf) self.new }
    {
        self.form(form, values);
        self.byte(b'\n');
    }

    ghost lawful: { Lawful room laid };
}

// Counts bytes, as far as a `usize` goes.
#[derive(Clone, Copy)]
pub struct Count {
    pub bytes: usize,
}

impl Sink for Count {
    ghost room = { λ s a. s.bytes < 2 ^ 64 };

    ghost laid = { λ s a t. t.bytes ≡ counted s.bytes a };

    ghost lawful = { record {
      none = λ s h. counted_none s.bytes h;
      more = λ s t u a b p q. counted_more s.bytes t.bytes u.bytes a b p q;
      front = λ s a b h. h;
      left = λ s t a b h p. counted_left s.bytes t.bytes a p;
    } };

    fn byte(&mut self, _byte: u8) {
        self.bytes = self.bytes.saturating_add(1);
    }

    fn number(&mut self, value: u64) {
        self.bytes = self.bytes.saturating_add(number_size(value));
    }
}

// Writes into lent bytes, from the cursor `at` on.
#[derive(Drop)]
pub struct Page<'a> {
    pub out: &'a mut [u8],
    pub at: usize,
}

impl Sink for Page<'_> {
    ghost room = { λ s a. s.at + length a ≤ length s.out.now };

    ghost laid = { λ s a t. LaidBetween s.at s.out.now a t.at t.out.now × (t.out.ghost_name ≡ s.out.ghost_name) };

    ghost lawful = { record {
      none = λ s h. (page_none s.at s.out.now h, refl);
      more = λ s t u a b p q. (page_more p.0 q.0, q.1 ∙ p.1);
      front = λ s a b h. page_front s.at (length s.out.now) a b h;
      left = λ s t a b h p. page_left p.0 b h;
    } };

    fn byte(&mut self, byte: u8) {
        self.out[self.at] = byte;
        self.at += 1;
    }

    fn number(&mut self, value: u64) {
        let n = write_number(&mut self.out[self.at..], value);
        self.at += n;
    }

    // The line writer gets the rest of the buffer from the cursor on, the form that document 01 names for it.
    fn line(&mut self, form: &[u8], values: &[u64]) {
        let written = write_line(&mut self.out[self.at..], form, values);
        self.at += written;
    }
}

// Writes a form with its numbers, and LF, at the front of `out`, and returns how many bytes that takes.
fn write_line(out: &mut [u8], form: &[u8], values: &[u64]) -> usize
    requires { length (fill form.now values.now ++ lf) ≤ length out.old }
    ensures { Wrote (fill form.now values.now ++ lf) result out.old out.new }
{
    let mut page = Page { out, at: 0 };
    page.form(form, values);
    page.byte(b'\n');
    page.at
}
