// Operations that carry the image from the old form to the ledger's, or back: the image has another length afterwards.
use crate::print::Left;
use crate::{bytes, numbers, print};
use image::layout::IMAGE;
use rules::refusals::Refusal;
use std::io;

// The longest destination that a script asks for.
const ROOM: usize = IMAGE + 1;

// Whether every byte is 255.
fn untouched(s: &[u8]) -> bool {
    s.iter().all(|b| *b == 255)
}

// j, k: the image forward or back.
fn carried(op: u8, image: &[u8], target: &mut [u8]) -> Result<(), Refusal> {
    match op {
        b'j' => convert::forward(image, target),
        _ => convert::back(image, target),
    }
}

// Into a destination of which every byte is 255. Prints the answer, and whether the destination changed.
fn converted(
    to: &impl Print,
    op: u8,
    image: &[u8],
    target: &mut [u8],
    number: usize,
) -> io::Result<bool> {
    target.fill(255);
    let answer = carried(op, image, target);
    print::refusal(to, &answer)?;
    print::finish(to, Left::Compare, untouched(target), number)?;
    Ok(answer.is_ok())
}

// From the image of length old at the front of space into the first bytes of other, and back to space if the answer is 0. Gives the
// image's length from then on.
fn moved(
    to: &impl Print,
    n: &[u8],
    space: &mut [u8],
    old: usize,
    other: &mut [u8],
    number: usize,
) -> io::Result<usize> {
    let length = numbers::at(n, 1);
    if space.len() < old || other.len() < length {
        print::bad(to, number)?;
        return Ok(old);
    }
    if !converted(
        to,
        bytes::get(n, 0),
        &space[..old],
        &mut other[..length],
        number,
    )? {
        return Ok(old);
    }
    bytes::copy(space, &other[..length]);
    Ok(length)
}

// Plays the line with this number on an image of length old. If the answer is 0, the destination is the image from then on. Gives the
// image's length.
pub(crate) fn play(
    to: &impl Print,
    space: &mut [u8],
    old: usize,
    n: &[u8],
    number: usize,
) -> io::Result<usize> {
    let mut other = [0u8; ROOM];
    moved(to, n, space, old, &mut other, number)
}
