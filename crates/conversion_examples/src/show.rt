// What the examples print of an answer.
use console::{convert, print_text_mark, strip, written_text};
use frames::{Refusal, numbers_of};
use std::io::Result as IoResult;

// What is shown, and number and place.
pub fn numbers(rt: &impl Print, what: &str, written: Result<usize, Refusal>) -> IoResult<()> {
    let [number, place] = numbers_of(written);
    println!(rt; "{what}: {number} {place}")
}

// The converter on a sheet: number, place and what was written.
pub fn converted(rt: &impl Print, what: &str, sheet: &[u8]) -> IoResult<()> {
    let mut out = io::large_buffer();
    let written = convert(sheet, &mut out);
    numbers(rt, what, written)?;
    rt.write_all(written_text(written, &out))
}

// The stripper on a sheet and a timetable of the converted one: number, place, what was written, and how that is marked for the sheet.
pub fn stripped(rt: &impl Print, what: &str, sheet: &[u8], paper: &[u8]) -> IoResult<()> {
    let mut out = io::large_buffer();
    let written = strip(sheet, paper, &mut out);
    numbers(rt, what, written)?;
    rt.write_all(written_text(written, &out))?;
    print_text_mark(rt, sheet, written, &out)
}
