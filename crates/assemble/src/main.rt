// A step list as text, from standard input, becomes packed steps on standard output; or its first fault a line on standard error,
// as 3:6: expected a take, 0 to 15.
//
// The file stdin is document 01's session, with a comment after each opening that names its take; stdout is that session packed,
// as document 01 packs it.
#![tactic(auto)]

use lines::Line;
use notation::Fault;
use std::io;

// The longest text.
const TEXT: usize = 262144;

// No line with a step is shorter than seven bytes, the last but for its end: room for every step of a text.
const LIST: usize = 8 * (TEXT / 7 + 1);

const STEP: usize = 8;

// Writes the first n steps of the list.
fn pack(rt: &impl Print, list: &[u8], n: usize) -> io::Result<()> {
    if n <= list.len() / STEP {
        let end = STEP * n;
        rt.write_all(&list[..end])?;
    }
    Ok(())
}

// Writes the line of a fault.
fn tell(to: &impl Print, fault: Fault) -> io::Result<()> {
    let Fault {
        line,
        column,
        expected,
    } = fault;
    print!(to; "{line}:{column}: expected ")?;
    let words = Line::EMPTY.word(faults::words(expected));
    writing::show(to, words.byte(b'\n'))?;
    Ok(())
}

fn assemble(rt: HostRuntime, text: &[u8], list: &mut [u8]) -> io::Result<()> {
    match parser::parse(text, list) {
        Ok(n) => pack(&rt, list, n),
        Err(fault) => tell(&rt.stderr(), fault),
    }
}

fn main(rt: HostRuntime) -> io::Result<()> {
    let mut text = [0u8; TEXT];
    let end = reading::read_full(&mut rt.reader(), &mut text)?;
    if end == TEXT {
        return rt.eprintln("a text of less than 262144 bytes is read");
    }
    let mut list = [0u8; LIST];
    assemble(rt, &text[..end], &mut list)
}
