// Histories, packed in the image: what the crate marks decides.
ghost use Rattle.std.specs.Prelude.{◌<◌, ◌≤◌};

use crate::print::Left;
use crate::{bytes, numbers, print};
use lists::limits::LAST;
use marks::{History, Relation};
use std::io;

// A history of a flag, an incarnation number and a list: the numbers from the second on, of which there are 2 to 17.
fn history(n: &[u8]) -> History {
    let mut h = History::INITIAL;
    h.stable = numbers::at(n, 2) != 0;
    h.incarnation = (numbers::at(n, 3) % 65536) as u16;
    h.count = ((numbers::count(n).unwrap_or(0) + 13) % 16) as u8;
    for k in 0..marks::PLACES {
        h.checkpoints[k] = (numbers::at(n, k + 4) % 65536) as u16;
    }
    h
}

// Stores a history from at on.
fn store(image: &mut [u8], at: usize, h: History) -> Left
    requires { at < 4294967296 }
{
    let n = h.count as usize;
    if image.len() < at + marks::SIZE || marks::PLACES < n {
        return Left::Bad;
    }
    packed_histories::store(h, image, at);
    Left::Silent
}

// The history from at on; the initial one past the end.
fn load(image: &[u8], at: usize) -> History
    requires { at < 4294967296 }
{
    if image.len() < at + marks::SIZE {
        return History::INITIAL;
    }
    packed_histories::load(image, at)
}

// Z, R, K: freeze, fall, signing.
fn advanced(op: u8, h: History) -> History {
    let n = h.count as usize;
    if op == b'Z' {
        return h.stabilize();
    }
    if op == b'R' && h.incarnation < LAST {
        return h.rollback();
    }
    if op == b'K' && n < marks::PLACES {
        return h.checkpoint();
    }
    h
}

fn advance(op: u8, image: &mut [u8], at: usize) -> Left
    requires { at < 4294967296 }
{
    let h = load(image, at);
    store(image, at, advanced(op, h))
}

// N: the newer of the histories at a and b, from at on.
fn newer(image: &mut [u8], a: usize, b: usize, at: usize) -> Left
    requires { (a < 4294967296) × (b < 4294967296) × (at < 4294967296) }
{
    let x = load(image, a);
    let y = load(image, b);
    if x.older(y) {
        return store(image, at, y);
    }
    store(image, at, x)
}

// Whether x is stale by y.
fn superseded(x: History, y: History) -> bool
    requires { (x.count ≤ 15) × (y.count ≤ 15) }
{
    let r = x.compare(y);
    match r {
        Relation::LeftSuperseded => true,
        _ => false,
    }
}

// S, C, I: stale by, signed, of one life.
fn related(op: u8, x: History, y: History) -> bool {
    let n = x.count as usize;
    let m = y.count as usize;
    if marks::PLACES < n || marks::PLACES < m {
        return false;
    }
    match op {
        b'S' => superseded(x, y),
        b'C' => x.checkpointed_in(y),
        _ => x.same_incarnation(y),
    }
}

// T: the number of the comparison's answer.
fn relation(x: History, y: History) -> usize {
    let n = x.count as usize;
    let m = y.count as usize;
    if marks::PLACES < n || marks::PLACES < m {
        return 99;
    }
    x.compare(y).number() as usize
}

fn pair(to: &impl Print, op: u8, image: &[u8], a: usize, b: usize) -> io::Result<Left>
    requires { (a < 4294967296) × (b < 4294967296) }
{
    let x = load(image, a);
    let y = load(image, b);
    if op == b'T' {
        print::number(to, relation(x, y))?;
    } else {
        print::truth(to, related(op, x, y))?;
    }
    Ok(Left::Printed)
}

// W, P, Q: whether the bytes from at on are well-formed, a history is present in them, and it is frozen.
fn told(op: u8, image: &[u8], at: usize) -> bool
    requires { at < 4294967296 }
{
    if image.len() < at + marks::SIZE {
        return false;
    }
    match op {
        b'W' => packed_histories::formed(image, at, 15, &packed_histories::ramp()),
        b'P' => packed_histories::present(image, at),
        _ => packed_histories::load(image, at).stable,
    }
}

fn ask(to: &impl Print, op: u8, image: &[u8], at: usize) -> io::Result<Left>
    requires { at < 4294967296 }
{
    print::truth(to, told(op, image, at))?;
    Ok(Left::Printed)
}

pub(crate) fn play(to: &impl Print, image: &mut [u8], n: &[u8]) -> io::Result<Left> {
    let op = bytes::get(n, 0);
    let a = numbers::at(n, 1);
    let b = numbers::at(n, 2);
    match op {
        b'H' => Ok(store(image, a, history(n))),
        b'Z' | b'R' | b'K' => Ok(advance(op, image, a)),
        b'N' => Ok(newer(image, a, b, numbers::at(n, 3))),
        b'W' | b'P' | b'Q' => ask(to, op, image, a),
        _ => pair(to, op, image, a, b),
    }
}
