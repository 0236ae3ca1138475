// Runs packed steps from standard input, 2,000 to a session, and prints a line after every 250: the step from 1, its reply
// (outcome or refusal, transactor, message, value), and the Adler-32 sums of the 250 replies and of the image. Every fourth
// session starts with next message number 65,280, so that the numbers run out.
//
// The file stdin has 20,000 steps, chosen by the state of the session so that every outcome, and every refusal of a step but 28,
// for which its sessions are too short, and 31, which no session from a fresh image meets, comes up many times. The file stdout was
// not made by this program: an independent model of documents 01 and 02 gave the lines for the same steps.
#![tactic(auto)]

ghost use Rattle.std.specs.Prelude.{◌<◌};

use image::layout::IMAGE;
use std::io;

// Bytes and steps of a part, parts of a session, parts, and bytes of them all.
const PART: usize = 2000;

const STEPS: u64 = 250;

const SESSION: usize = 8;

const PARTS: usize = 80;

const INPUT: usize = PART * PARTS;

fn adler32(s: &[u8]) -> u32 {
    let mut a: u32 = 1;
    let mut b: u32 = 0;
    for x in s {
        a = (a + u32::from(*x)) % 65521;
        b = (b + a) % 65521;
    }
    b * 65536 + a
}

// The line of step, which the last reply answers.
fn line(to: &impl Print, step: u64, replies: &[u8], image: &[u8]) -> io::Result<()> {
    if replies.len() < 8 {
        return Ok(());
    }
    let at = replies.len() - 8;
    let outcome = replies[at];
    let transactor = replies[at + 1];
    let message = octets::load16(replies, at + 2);
    let value = octets::load32(replies, at + 4);
    print!(to; "{step} {outcome} {transactor} {message} {value} ")?;
    print!(to; "{} {}\n", adler32(replies), adler32(image))
}

// Before the first part of a session: a fresh image, of every fourth session with number 65,280 next.
fn begin(image: &mut [u8], i: usize) {
    if i % SESSION != 0 {
        return;
    }
    let _ = ledger::begin(image, 16, 32, 15);
    if i / SESSION % 4 == 3 && 1 < image.len() {
        image[1] = 255;
    }
}

// Runs part i of the list.
fn play(
    to: &impl Print,
    image: &mut [u8],
    list: &[u8],
    i: usize,
    replies: &mut [u8],
) -> io::Result<()>
    requires { i < 80 }
{
    let start = PART * i;
    let _ = ledger::run(image, list, start, start + PART, replies);
    line(to, STEPS * (i as u64 + 1), replies, image)
}

fn play_all(to: &impl Print, image: &mut [u8], list: &[u8], replies: &mut [u8]) -> io::Result<()> {
    for i in 0..PARTS {
        begin(image, i);
        play(to, image, list, i, replies)?;
    }
    Ok(())
}

fn main(rt: HostRuntime) -> io::Result<()> {
    let mut list = [0u8; INPUT];
    reading::read_full(&mut rt.reader(), &mut list)?;
    let mut image = [0u8; IMAGE];
    let mut replies = [0u8; PART];
    play_all(&rt, &mut image, &list, &mut replies)
}
