// Packed steps from standard input as text, each with its reply as a comment, played part by part on a fresh session. A rest under 8
// bytes is ignored.
#![tactic(auto)]

ghost use Rattle.std.specs.Prelude.{◌≡◌, length};

use image::layout::IMAGE;
use lines::Line;
use lists::LONGEST;
use std::io;
use std::io::Read;

// The longest part of a run.
const PART: usize = LONGEST;

// More parts than any input has.
const PARTS: u64 = 0x4_0000_0000_0000;

// A line without its LF.
fn cut(l: Line) -> Line {
    Line {
        len: l.len.saturating_sub(1),
        ..l
    }
}

// One line behind the other.
fn append(a: Line, b: Line) -> Line {
    match b.bytes.get(..b.len) {
        Some(bytes) => a.word(bytes),
        None => a,
    }
}

// Step i and its reply.
fn listed(to: &impl Print, list: &[u8], replied: &[u8], i: usize) -> io::Result<bool> {
    let step = cut(printer::step_line(list, i));
    let reply = replies::reply_line(list, replied, i);
    writing::show(to, append(step.word(b" # "), reply).byte(b'\n'))
}

// The first n steps; answers whether all were written.
fn lines(to: &impl Print, list: &[u8], replied: &[u8], n: usize) -> io::Result<bool> {
    for i in 0..n {
        if !listed(to, list, replied, i)? {
            return Ok(false);
        }
    }
    Ok(true)
}

// Runs as many steps of the list as there is room for replies, and lists them.
fn play(to: &impl Print, image: &mut [u8], list: &[u8], replied: &mut [u8]) -> io::Result<bool> {
    let end = replied.len();
    let _ = ledger::run(image, list, 0, end, replied);
    lines(to, list, replied, end / 8)
}

// Reads a part and plays it. Answers whether to go on: it was a whole part, and its lines are written.
fn part(
    from: &mut impl Read,
    to: &impl Print,
    image: &mut [u8],
    list: &mut [u8],
    replied: &mut [u8],
) -> io::Result<bool>
    requires { (length list.old ≡ 8192) × (length replied.old ≡ 8192) }
{
    let got = reading::read_full(from, list)?;
    let end = got / 8 * 8;
    let written = play(to, image, list, &mut replied[..end])?;
    Ok(written & (got == PART))
}

// The next part, with buffers of its own.
fn turn(from: &mut impl Read, to: &impl Print, image: &mut [u8]) -> io::Result<bool> {
    let mut list = [0u8; PART];
    let mut replied = [0u8; PART];
    part(from, to, image, &mut list, &mut replied)
}

// All of standard input. A loop must end, so the parts are counted.
fn main(rt: HostRuntime) -> io::Result<()> {
    let mut from = rt.reader();
    let mut space = [0u8; IMAGE];
    let image: &mut [u8] = &mut space;
    let _ = ledger::begin(image, 16, 32, 15);
    for _ in 0..PARTS {
        if !turn(&mut from, &rt, image)? {
            break;
        }
    }
    Ok(())
}
