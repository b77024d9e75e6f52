// Messages on standard error, which `err` is.
use crate::escape::write_escaped;
use std::io::{Cursor, Error, Result, Write};

// `PROGRAM: WHAT: REASON`. What failed may be a file, whose name need not be UTF-8.
pub fn report(err: &impl Print, program: &[u8], what: &[u8], error: Error) {
    if err.write_all(program).is_ok()
        && print!(err; ": ").is_ok()
        && write_escaped(err, what).is_ok()
    {
        fail(err, error);
    }
}

// `PROGRAM: argument I: REASON`.
pub fn report_argument(err: &impl Print, program: &[u8], i: usize, error: Error) {
    if err.write_all(program).is_ok() && print!(err; ": argument {i}").is_ok() {
        fail(err, error);
    }
}

// `: REASON` and the end of the line.
fn fail(err: &impl Print, error: Error) {
    if print!(err; ": ").is_ok() && print_reason(err, error).is_ok() {
        let _ = println!(err);
    }
}

// The reason in std's words, without the number that stands behind the system's own.
fn print_reason(err: &impl Print, error: Error) -> Result<()> {
    let mut words = [0u8; 256];
    let mut to = Cursor::new(&mut words[..]);
    write!(to, "{error}")?;
    let n = (to.position() as usize).min(256);
    let Ok(text) = str::from_utf8(&words[..n]) else {
        return err.print(error);
    };
    match text.split_once(" (os error ") {
        Some((reason, _)) => err.print(reason),
        None => err.print(text),
    }
}
