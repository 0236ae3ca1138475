// Reads cases of the notation, a line each, and prints for each the bytes of its steps, or its fault. In a case / stands for LF, ^ for a
// tab and ~ for CR; a line that begins with = is a heading and is skipped. Every case is read into a list of 80 bytes, room for ten steps;
// a fault that does not leave the list as it was says so.
//
// The lines of the file stdout were not made by this program: they were written by hand.
#![tactic(auto)]

use cases::lines::without_end;
use cases::print;
use lines::Line;
use notation::Fault;
use std::io;

// The longest script, the longest case, the list, and what it holds before.
const SCRIPT: usize = 65536;

const TEXT: usize = 256;

const LIST: usize = 80;

const BEFORE: u8 = 238;

fn byte_of(c: u8) -> u8 {
    match c {
        b'/' => b'\n',
        b'^' => b'\t',
        b'~' => b'\r',
        _ => c,
    }
}

// The case as a text.
fn decode(text: &mut [u8], line: &[u8]) {
    for (byte, c) in text.iter_mut().zip(line) {
        *byte = byte_of(*c);
    }
}

fn tell(to: &impl Print, fault: Fault) -> io::Result<()> {
    let Fault {
        line,
        column,
        expected,
    } = fault;
    print!(to; " line {line} column {column}, expected ")?;
    let words = Line::EMPTY.word(faults::words(expected));
    writing::show(to, words)?;
    Ok(())
}

// Whether the list is as it was.
fn compare(to: &impl Print, list: &[u8]) -> io::Result<()> {
    if list != [BEFORE; LIST].as_slice() {
        to.print(", list changed")?;
    }
    Ok(())
}

fn play(to: &impl Print, text: &[u8], list: &mut [u8]) -> io::Result<()> {
    match parser::parse(text, list) {
        Ok(n) => print::row(to, list, 0, n % 11 * 8),
        Err(fault) => {
            tell(to, fault)?;
            compare(to, list)
        }
    }
}

fn case(to: &impl Print, line: &[u8]) -> io::Result<()> {
    let n = line.len();
    if TEXT < n || line.starts_with(b"=") {
        return Ok(());
    }
    let mut text = [0u8; TEXT];
    decode(&mut text, line);
    let mut list = [BEFORE; LIST];
    print::label(to, line)?;
    play(to, &text[..n], &mut list)?;
    to.print("\n")
}

// One case after the other.
fn cases(to: &impl Print, s: &[u8]) -> io::Result<()> {
    for line in s.split_inclusive(|b| *b == b'\n') {
        case(to, without_end(line))?;
    }
    Ok(())
}

fn main(rt: HostRuntime) -> io::Result<()> {
    let mut text = [0u8; SCRIPT];
    let end = reading::read_full(&mut rt.reader(), &mut text)?;
    cases(&rt, &text[..end])
}
