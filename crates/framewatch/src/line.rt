// A line for standard output, put together piece by piece, of at most `WIDTH` columns.
ghost use Rattle.std.specs.Prelude.{◌≡◌, ◌+◌, ◌*◌, ◌≤◌, min, max, length};
ghost use Rattle.rules.specs.Text.{decimal};
ghost use Rattle.framewatch.specs.Columns.{width, most_digits};

use std::io::Result;

pub const WIDTH: usize = 80;

// The columns used so far, spaces behind them, and room for LF behind the last; and whether all lines before this one were written, or why
// one was not.
#[derive(Clone, Copy)]
pub struct Line {
    pub bytes: [u8; WIDTH + 1],
    pub used: usize,
    pub ok: Result<()>,
    ghost fits: { used ≤ width },
}

impl Line {
    pub fn new() -> Line
        ensures { result.used ≡ 0 }
    {
        Line {
            bytes: [b' '; WIDTH + 1],
            used: 0,
            ok: Ok(()),
        }
    }

    // With a text behind it.
    pub fn text(mut self, text: &[u8]) -> Line
        requires { self.used + length text.now ≤ width }
        ensures { result.used ≡ self.used + length text.now }
    {
        let start = self.used;
        let end = start + text.len();
        self.bytes[start..end].copy_from_slice(text);
        self.used = end;
        self
    }

    // With a number behind it.
    pub fn number(self, n: u64) -> Line
        requires { self.used + most_digits ≤ width }
        ensures used_value { result.used ≡ self.used + length (decimal n) }
        ensures n_len_bound { length (decimal n) ≤ most_digits }
    {
        let mut digits = [0u8; 20];
        let k = text::write_number(&mut digits, n);
        self.text(&digits[..k])
    }

    // With spaces behind it, up to a column, or up to the last one where the column is past that.
    pub fn to_column(mut self, column: usize) -> Line
        ensures { result.used ≡ max self.used (min column width) }
    {
        self.used = self.used.max(column.min(WIDTH));
        self
    }

    // With a number behind it, in so many columns: spaces stand before the digits.
    pub fn right(self, n: u64, columns: usize) -> Line
        requires { (self.used + 2 * most_digits ≤ width) × (columns ≤ most_digits) }
        ensures used_value { result.used ≡ self.used + max columns (length (decimal n)) }
        ensures n_len_bound { length (decimal n) ≤ most_digits }
    {
        let k = text::number_size(n);
        if columns <= k {
            return self.number(n);
        }
        let column = self.used + (columns - k);
        self.to_column(column).number(n)
    }

    // Writes the line and its end by one write, if all before it were written; the next one is empty.
    pub fn end(self, rt: &impl Print) -> Line
        ensures { result.used ≡ 0 }
    {
        let n = self.used;
        let mut bytes = self.bytes;
        bytes[n] = b'\n';
        let mut next = Line::new();
        next.ok = match self.ok {
            Ok(()) => rt.write_all(&bytes[..n + 1]),
            Err(e) => Err(e),
        };
        next
    }

    // With an item of a list at a column, or, where the line is past it or the item does not fit there, on a line of its own from
    // column `hang` on.
    pub fn item(self, rt: &impl Print, item: Line, column: usize, hang: usize) -> Line
        requires { hang + item.used ≤ width }
    {
        let n = item.used;
        if self.used <= column {
            if column <= WIDTH - n {
                return self.to_column(column).text(&item.bytes[..n]);
            }
        }
        self.end(rt).to_column(hang).text(&item.bytes[..n])
    }
}
