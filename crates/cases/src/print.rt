// What operations print after the label.
use crate::bytes;
use rules::refusals::Refusal;
use std::io;

// What an operation leaves to print.
#[derive(Clone, Copy, Debug, PartialEq, Eq)]
pub(crate) enum Left {
    // nothing
    Silent,
    // the line's end
    Printed,
    // whether the image is as it was
    Compare,
    // that something else is not as it was
    Changed,
    // that the line is not understood
    Bad,
}

pub fn text(to: &impl Print, s: &[u8]) -> io::Result<()> {
    to.write_all(s)
}

pub fn number(to: &impl Print, n: usize) -> io::Result<()> {
    print!(to; " {n}")
}

// The number of a refusal, or 0.
pub(crate) fn refusal<A>(to: &impl Print, answer: &Result<A, Refusal>) -> io::Result<()> {
    match answer {
        Ok(_) => number(to, 0),
        Err(r) => number(to, usize::from(r.number())),
    }
}

// So many bytes of s from at on, two hexadecimal digits each.
pub fn row(to: &impl Print, s: &[u8], at: usize, count: usize) -> io::Result<()> {
    for k in 0..count {
        let b = bytes::get(s, at % 4294967296 + k % 65536);
        print!(to; " {b:02x}")?;
    }
    Ok(())
}

pub(crate) fn truth(to: &impl Print, yes: bool) -> io::Result<()> {
    to.print(if yes { " yes" } else { " no" })
}

fn sameness(to: &impl Print, same: bool) -> io::Result<()> {
    to.print(if same { " unchanged\n" } else { " changed\n" })
}

pub fn label(to: &impl Print, s: &[u8]) -> io::Result<()> {
    if !s.is_empty() {
        text(to, s)?;
        to.print(":")?;
    }
    Ok(())
}

// A line of the script that is not understood.
pub(crate) fn bad(to: &impl Print, line: usize) -> io::Result<()> {
    print!(to; " bad line {line}\n")
}

// Prints what an operation of that line left to print; same says whether the image is as it was.
pub(crate) fn finish(to: &impl Print, left: Left, same: bool, line: usize) -> io::Result<()> {
    match left {
        Left::Silent => Ok(()),
        Left::Printed => to.print("\n"),
        Left::Compare => sameness(to, same),
        Left::Changed => sameness(to, false),
        Left::Bad => bad(to, line),
    }
}
