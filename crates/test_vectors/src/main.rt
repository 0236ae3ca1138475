// Plays a script of cases: each line of standard input is an operation on an image, its numbers and a label, and prints at most one
// line. The file stdin says what each operation is, and from which sentence of documents 01 and 02 each group of cases comes. The
// lines of the file stdout were not made by this program: they come from the documents, by hand, or from an independent model.
//
// To add a case, add its line to stdin and what it should print to stdout: no proof changes. To add an operation, write its function
// in the crate cases, with its letter in the play of its group, and give it a row of forms::FORMS.
#![tactic(auto)]

use cases::{runs, script};
use std::io;

// The longest script.
const SCRIPT: usize = 131072;

fn main(rt: HostRuntime) -> io::Result<()> {
    let mut text = [0u8; SCRIPT];
    let end = reading::read_full(&mut rt.reader(), &mut text)?;
    let mut space = [0u8; script::ROOM];
    let mut list = [0u8; runs::LIST];
    script::play(&rt, &mut space, &mut list, &text[..end])
}
