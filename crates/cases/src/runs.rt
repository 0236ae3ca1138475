// Operations that run steps, one or a list, by the ledger or by the engine, or thin a list.
use crate::print::Left;
use crate::{bytes, numbers, print};
use std::io;
use window::Worst;

// The longest list, and the most replies.
pub const LIST: usize = 8208;

// The first half of a step: kind, take, other and 16 times the zero bits, parcel.
fn head(n: &[u8]) -> u32 {
    let kind = numbers::at(n, 1) % 16;
    let transactor = numbers::at(n, 2) % 16;
    let other = numbers::at(n, 3);
    let second = other % 16 * 16 + other / 16 % 16;
    (kind * 268435456 + transactor * 16777216 + second * 65536 + numbers::at(n, 4) % 65536) as u32
}

// A step as a list of one.
fn packed(n: &[u8]) -> [u8; 8] {
    let mut list = [0u8; 8];
    octets::store32(&mut list, 0, head(n));
    octets::store32(&mut list, 4, numbers::at(n, 5) as u32);
    list
}

// s, r: runs a step so often.
fn repeat(image: &mut [u8], list: &[u8], times: usize) -> Left {
    let mut replies = [0u8; 8];
    for _ in 0..times {
        let _ = ledger::run(image, list, 0, 8, &mut replies);
    }
    Left::Silent
}

fn reply(to: &impl Print, r: &[u8]) -> io::Result<()> {
    print::number(to, bytes::packed(r, 0, 1))?;
    print::number(to, bytes::packed(r, 1, 1))?;
    print::number(to, bytes::packed(r, 2, 2))?;
    print::number(to, bytes::packed(r, 4, 4))
}

// c: runs a step, and prints its reply.
fn step(to: &impl Print, image: &mut [u8], list: &[u8]) -> io::Result<Left> {
    let mut replies = [0u8; 8];
    let _ = ledger::run(image, list, 0, 8, &mut replies);
    reply(to, &replies)?;
    Ok(Left::Compare)
}

// Runs a part of a list, with zeros for the replies; prints the answer.
fn run(
    to: &impl Print,
    image: &mut [u8],
    list: &[u8],
    start: usize,
    end: usize,
    replies: &mut [u8],
) -> io::Result<Left> {
    let answer = ledger::run(image, list, start, end, replies);
    print::refusal(to, &answer)?;
    if octets::all_zero(replies, 0, replies.len()) {
        return Ok(Left::Compare);
    }
    Ok(Left::Changed)
}

// The short list of a part, in a buffer of which every byte was 255: prints the refusal, how many steps are kept, and so many bytes of the
// buffer.
fn thinned(
    to: &impl Print,
    image: &[u8],
    list: &[u8],
    start: usize,
    end: usize,
    out: &mut [u8],
    shown: usize,
) -> io::Result<Left> {
    out.fill(255);
    let kept = thin::thin(image, list, start, end, out);
    print::refusal(to, &kept)?;
    print::number(to, kept.unwrap_or(0))?;
    print::row(to, out, 0, shown)?;
    Ok(Left::Printed)
}

// The engine on a whole list, with replies of which every byte was 255: prints the answer, and so many bytes of the replies.
fn chained(to: &impl Print, list: &[u8], replies: &mut [u8], n: &[u8]) -> io::Result<Left> {
    replies.fill(255);
    let answer = engine::play(
        list,
        replies,
        numbers::at(n, 1),
        numbers::at(n, 2),
        numbers::at(n, 3),
    );
    print::refusal(to, &answer)?;
    print::row(to, replies, 0, numbers::at(n, 6))?;
    Ok(Left::Printed)
}

// Runs or thins a part, or plays the whole list by the engine.
fn listed(
    to: &impl Print,
    image: &mut [u8],
    list: &[u8],
    buffer: &mut [u8],
    n: &[u8],
) -> io::Result<Left> {
    let start = numbers::at(n, 1);
    let end = numbers::at(n, 2);
    let op = bytes::get(n, 0);
    match op {
        b'u' => run(to, image, list, start, end, buffer),
        b'd' => thinned(to, image, list, start, end, buffer, numbers::at(n, 5)),
        _ => chained(to, list, buffer, n),
    }
}

// u, d, G: a list of so many bytes, with a buffer of so many bytes.
fn part(
    to: &impl Print,
    image: &mut [u8],
    list: &[u8],
    n: &[u8],
    length: usize,
    room: usize,
) -> io::Result<Left> {
    if list.len() < length || LIST < room {
        return Ok(Left::Bad);
    }
    let mut buffer = [0u8; LIST];
    listed(to, image, &list[..length], &mut buffer[..room], n)
}

// m: puts a step in the list.
fn put(list: &mut [u8], n: &[u8]) -> Left {
    let at = numbers::at(n, 6);
    if list.len() < at + 8 {
        return Left::Bad;
    }
    octets::store32(list, at, head(n));
    octets::store32(list, at + 4, numbers::at(n, 5) as u32);
    Left::Silent
}

// t: the worst window of a list of so many bytes of replies.
fn worst(to: &impl Print, list: &[u8], length: usize, width: usize) -> io::Result<Left> {
    if list.len() < length {
        return Ok(Left::Bad);
    }
    let answer = window::worst_window(&list[..length], width);
    print::refusal(to, &answer)?;
    let w = answer.unwrap_or(Worst { count: 0, place: 0 });
    print::number(to, w.count)?;
    print::number(to, w.place)?;
    Ok(Left::Printed)
}

fn steps(to: &impl Print, op: u8, image: &mut [u8], n: &[u8]) -> io::Result<Left> {
    let list = packed(n);
    match op {
        b's' => Ok(repeat(image, &list, 1)),
        b'r' => Ok(repeat(image, &list, numbers::at(n, 6))),
        _ => step(to, image, &list),
    }
}

// Plays an operation: the image, the list that lines build, and the line up to its label.
pub(crate) fn play(
    to: &impl Print,
    image: &mut [u8],
    list: &mut [u8],
    n: &[u8],
) -> io::Result<Left> {
    let op = bytes::get(n, 0);
    match op {
        b'l' => Ok(numbers::put(list, n)),
        b'm' => Ok(put(list, n)),
        b'u' | b'd' => part(to, image, list, n, numbers::at(n, 3), numbers::at(n, 4)),
        b'G' => part(to, image, list, n, numbers::at(n, 4), numbers::at(n, 5)),
        b't' => worst(to, list, numbers::at(n, 1), numbers::at(n, 2)),
        _ => steps(to, op, image, n),
    }
}
