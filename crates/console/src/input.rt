// Texts read whole into a lent buffer, from a file that is open or named. A function that says so reports what failed, on `err`, standard error.
ghost use Rattle.std.specs.Prelude.{IfOk};
ghost use Rattle.io.specs.Counts.{IsPrefixLen};

use crate::errors::{report, report_argument};
use std::env::FillError;
use std::fs::File;
use std::io::{Error, ErrorKind, Read, Result};
use std::rt::{Env, Files};

// Reads until a read finds the end of the input, the buffer is full or a read fails: how many bytes are at the front of the buffer. Fewer
// than it has are the whole input; where they fill it the input may go on. A read that a signal interrupts counts as failed; the programs
// handle no signal, so none does.
fn read_all(from: &mut impl Read, buf: &mut [u8]) -> Result<usize>
    ensures { IfOk result (λ n. IsPrefixLen n buf.new) }
{
    let mut n = 0;
    // std's read_to_end wants a Vec, on the heap; its read_exact fails where the input ends early
    while n < buf.len() {
        let more = from.read(&mut buf[n..])?;
        if more == 0 {
            return Ok(n);
        }
        n += more;
    }
    Ok(n)
}

// The text of an open file that messages call `name`. Reports a failure.
pub fn read_descriptor(
    err: &impl Print,
    program: &[u8],
    name: &[u8],
    from: &mut impl Read,
    buf: &mut [u8],
) -> Result<usize>
    ensures { IfOk result (λ n. IsPrefixLen n buf.new) }
{
    let input = read_all(from, buf);
    if let Err(e) = input {
        report(err, program, name, e);
    }
    input
}

// Opens the file of that name. A name that is not UTF-8 is refused, since std opens none.
fn open<R: Files>(rt: &R, name: &[u8]) -> Result<R::File> {
    match str::from_utf8(name) {
        Ok(path) => File::open(rt, path),
        Err(_) => Err(Error::new(ErrorKind::InvalidFilename, "the name is not UTF-8")),
    }
}

// The text of the file of that name. Reports a failure.
pub fn read_file(
    rt: &impl Files,
    err: &impl Print,
    program: &[u8],
    name: &[u8],
    buf: &mut [u8],
) -> Result<usize>
    ensures { IfOk result (λ n. IsPrefixLen n buf.new) }
{
    match open(rt, name) {
        Ok(mut file) => read_descriptor(err, program, name, &mut file, buf),
        Err(e) => {
            report(err, program, name, e);
            Err(e)
        }
    }
}

// The number of the program's arguments, its own name among them.
pub fn argument_count(rt: &impl Env) -> usize {
    for i in 0..usize::MAX {
        if let Err(FillError::NotPresent) = rt.arg(i, &mut []) {
            return i;
        }
    }
    usize::MAX
}

// The system's numbers of an argument that is missing, and of a name that is too long.
const INVALID: i32 = 22;

const NAME_TOO_LONG: i32 = 36;

// Argument `i` of the program. Reports a failure: one that is longer than the buffer.
pub fn read_argument(
    rt: &impl Env,
    err: &impl Print,
    program: &[u8],
    i: usize,
    buf: &mut [u8],
) -> Result<usize>
    ensures { IfOk result (λ n. IsPrefixLen n buf.new) }
{
    let error = match rt.arg(i, buf) {
        Ok(n) => return Ok(n),
        Err(FillError::NotPresent) => Error::from_raw_os_error(INVALID),
        Err(FillError::TooLong) => Error::from_raw_os_error(NAME_TOO_LONG),
    };
    report_argument(err, program, i, error);
    Err(error)
}

// The text of the file that argument `i` names. Reports a failure.
pub fn read_named(
    rt: &(impl Env + Files),
    err: &impl Print,
    program: &[u8],
    i: usize,
    buf: &mut [u8],
) -> Result<usize>
    ensures { IfOk result (λ n. IsPrefixLen n buf.new) }
{
    let mut path = io::buffer();
    let n = read_argument(rt, err, program, i, &mut path)?;
    read_file(rt, err, program, &path[..n], buf)
}
