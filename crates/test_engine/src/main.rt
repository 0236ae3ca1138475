// Document 02, W11: "a program compares the two on long mixed lists." Reads lists of 1,024 steps from standard input, in front of each the
// limits of its session, and runs the ledger and the engine on each. It prints a line for a list: the limits of transactors, messages and
// checkpoints; the steps; how many of the ledger's replies have each outcome, 0 to 5, and how many are refusals; and whether the replies of
// both are equal, or the first step, from 1, at which they differ.
//
// The file stdin has 24 lists, with limits from the least to the greatest and chosen by the state of the session, so that every outcome,
// and every refusal that a session of this length can have, comes up many times. The file stdout was not made by this program: an
// independent model of documents 01 and 02 gave the replies to the same lists.
#![tactic(auto)]

use image::layout::IMAGE;
use lists::STEP;
use std::io;
use std::io::Read;

const LISTS: usize = 24;

// Bytes of a list, and of the limits in front of it, of which the first three count.
const LIST: usize = 8192;

const LIMITS: usize = 8;

// How many replies have an outcome or a refusal from low up to high.
fn count(replies: &[u8], low: u8, high: u8) -> usize {
    replies
        .iter()
        .step_by(STEP)
        .filter(|outcome| low <= **outcome && **outcome < high)
        .count()
}

// The first byte at which they differ, or the length of the shorter.
fn difference(a: &[u8], b: &[u8]) -> usize {
    a.iter()
        .zip(b)
        .position(|(x, y)| *x != *y)
        .unwrap_or(a.len().min(b.len()))
}

fn share(to: &impl Print, replies: &[u8], low: u8, high: u8, after: &str) -> io::Result<()> {
    print!(to; "{}{after}", count(replies, low, high))
}

fn outcomes(to: &impl Print, replies: &[u8]) -> io::Result<()> {
    share(to, replies, 0, 1, " done, ")?;
    share(to, replies, 1, 2, " held, ")?;
    share(to, replies, 2, 3, " dropped, ")?;
    share(to, replies, 3, 4, " fallen back, ")?;
    share(to, replies, 4, 5, " vanished, ")?;
    share(to, replies, 5, 6, " not ready, ")?;
    share(to, replies, 20, 255, " refused: ")
}

fn verdict(to: &impl Print, replies: &[u8], others: &[u8]) -> io::Result<()> {
    let at = difference(replies, others);
    if at == replies.len() && at == others.len() {
        return to.println("all replies equal");
    }
    print!(to; "they differ at step {}\n", at / STEP + 1)
}

// One list, by both. The rooms for the replies differ, so that a refused list is not taken for equal replies.
fn play(
    to: &impl Print,
    list: &[u8],
    transactors: usize,
    messages: usize,
    checkpoints: usize,
) -> io::Result<()> {
    let mut image = [0u8; IMAGE];
    let mut replies = [255u8; LIST];
    let mut others = [254u8; LIST];
    let _ = ledger::begin(&mut image, transactors, messages, checkpoints);
    let _ = ledger::run(&mut image, list, 0, list.len(), &mut replies);
    let _ = engine::play(list, &mut others, transactors, messages, checkpoints);
    outcomes(to, &replies)?;
    verdict(to, &replies, &others)
}

// The next list of the input, with these limits.
fn play_with(from: &mut impl Read, to: &impl Print, limits: &[u8; LIMITS]) -> io::Result<()> {
    let mut list = [0u8; LIST];
    reading::read_full(from, &mut list)?;
    let transactors = usize::from(limits[0]);
    let messages = usize::from(limits[1]);
    let checkpoints = usize::from(limits[2]);
    let steps = list.len() / STEP;
    print!(to; "{transactors} {messages} {checkpoints}: {steps} steps, ")?;
    play(to, &list, transactors, messages, checkpoints)
}

fn play_next(from: &mut impl Read, to: &impl Print) -> io::Result<()> {
    let mut limits = [0u8; LIMITS];
    reading::read_full(from, &mut limits)?;
    play_with(from, to, &limits)
}

fn main(rt: HostRuntime) -> io::Result<()> {
    let mut from = rt.reader();
    for _ in 0..LISTS {
        play_next(&mut from, &rt)?;
    }
    Ok(())
}
