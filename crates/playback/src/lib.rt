// Plays packed steps from standard input on a fresh session, part by part, and prints a line for each: step from 1, outcome or
// refusal, transactor, message, value. A rest under 8 bytes is ignored.
#![tactic(auto)]

ghost use Rattle.std.specs.Prelude.{◌+◌, ◌*◌, ◌^◌, ◌≤◌, ◌<◌, ◌≡◌, length, take, decimal};

use image::layout::IMAGE;
use itoa::Buffer;
use lists::{LONGEST, packed};
use std::io;
use std::io::Read;

// The longest part of a run, in bytes and in steps.
const PART: usize = LONGEST;

const STEPS: u64 = 1024;

// The lines of a part: five numbers each, of at most 20 digits and a byte after them.
const TEXT: usize = 105 * 1024;

// More parts than any input has.
const PARTS: u64 = 0x4_0000_0000_0000;

// The decimal digits of n, at the start of text; answers how many.
fn digits(n: u64, text: &mut [u8; 20]) -> usize
    ensures within { result ≤ 20 }
    ensures value { take result text.new ≡ decimal n }
{
    let mut buffer = Buffer::new();
    let written = buffer.format(n).as_bytes();
    octets::write(text, 0, written);
    written.len()
}

// Writes n in decimal and then the byte after; answers the place after them.
fn put_number(out: &mut [u8], at: usize, n: u64, after: u8) -> usize
    requires { at + 21 ≤ length out.old }
    ensures { result ≤ at + 21 }
{
    let mut text = [0u8; 20];
    let k = digits(n, &mut text);
    octets::write(out, at, &text[..k]);
    out[at + k] = after;
    at + k + 1
}

// Writes the line of the reply at from; answers the place after it.
fn put_line(out: &mut [u8], at: usize, step: u64, replies: &[u8], from: usize) -> usize
    requires { (at + 105 ≤ length out.old) × (from + 8 ≤ length replies.now) }
    ensures { result ≤ at + 105 }
{
    let r = packed::decode_reply(replies, from);
    let a = put_number(out, at, step, b' ');
    let b = put_number(out, a, u64::from(r.outcome), b' ');
    let c = put_number(out, b, u64::from(r.transactor), b' ');
    let d = put_number(out, c, u64::from(r.message), b' ');
    put_number(out, d, u64::from(r.value), b'\n')
}

// Writes the lines of the first n replies, to the steps after those done; answers the place after them.
fn put_lines(out: &mut [u8], replies: &[u8], n: usize, done: u64) -> usize
    requires { (105 * n ≤ length out.old) × (8 * n ≤ length replies.now) × (done + n < 2 ^ 64) }
    ensures { result ≤ 105 * n }
{
    let mut at: usize = 0;
    for i in 0..n {
        at = put_line(out, at, done + i as u64 + 1, replies, 8 * i);
    }
    at
}

// Runs the first steps of the list, as many as there is room for replies, and prints the replies, to the steps after those
// done.
fn play(
    to: &impl Print,
    image: &mut [u8],
    list: &[u8],
    replies: &mut [u8],
    out: &mut [u8],
    done: u64,
) -> io::Result<()>
    requires { (length replies.old ≤ 8192) × (length out.old ≡ 107520) × (done + 1024 < 2 ^ 64) }
{
    let end = replies.len();
    let _ = ledger::run(image, list, 0, end, replies);
    let k = put_lines(out, replies, end / 8, done);
    to.write_all(&out[..k])
}

// Reads a part, plays it and prints its lines. Answers whether to go on: it was a whole part.
fn part(
    from: &mut impl Read,
    to: &impl Print,
    image: &mut [u8],
    list: &mut [u8],
    replies: &mut [u8],
    out: &mut [u8],
    done: u64,
) -> io::Result<bool>
    requires { (length list.old ≡ 8192) × (length replies.old ≡ 8192) × (length out.old ≡ 107520) × (done + 1024 < 2 ^ 64) }
{
    let got = reading::read_full(from, list)?;
    let end = got / 8 * 8;
    play(to, image, list, &mut replies[..end], out, done)?;
    Ok(got == PART)
}

// The part after the steps done, with buffers of its own.
fn turn(from: &mut impl Read, to: &impl Print, image: &mut [u8], done: u64) -> io::Result<bool>
    requires { done + 1024 < 2 ^ 64 }
{
    let mut list = [0u8; PART];
    let mut replies = [0u8; PART];
    let mut out = [0u8; TEXT];
    part(from, to, image, &mut list, &mut replies, &mut out, done)
}

// All of standard input. A loop must end, so the parts are counted.
pub fn replay(rt: &(impl Input + Print)) -> io::Result<()> {
    let mut from = rt.reader();
    let mut space = [0u8; IMAGE];
    let image: &mut [u8] = &mut space;
    let _ = ledger::begin(image, 16, 32, 15);
    for parts in 0..PARTS {
        if !turn(&mut from, rt, image, STEPS * parts)? {
            break;
        }
    }
    Ok(())
}
