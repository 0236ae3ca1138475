// A script, played line by line.
use crate::forms::Group;
use crate::print::Left;
use crate::{
    bytes, calls, conversions, dependences, forms, histories, lines, numbers, print, raw, runs,
};
use image::layout::IMAGE;
use std::io;

// The bytes of an image, and of the longest that a script asks for.
pub const ROOM: usize = IMAGE + 1;

// Plays an operation of a group: bytes, histories, maps, calls, runs.
fn operation(
    to: &impl Print,
    group: Option<Group>,
    image: &mut [u8],
    list: &mut [u8],
    n: &[u8],
) -> io::Result<Left> {
    match group {
        Some(Group::Bytes) => raw::play(to, image, n),
        Some(Group::Histories) => histories::play(to, image, n),
        Some(Group::Maps) => dependences::play(to, image, n),
        Some(Group::Calls) => calls::play(to, image, n),
        Some(Group::Runs) => runs::play(to, image, list, n),
        Some(Group::Conversions) | None => Ok(Left::Bad),
    }
}

// Plays an operation on the image, and prints what it left to print.
fn perform(
    to: &impl Print,
    group: Option<Group>,
    image: &mut [u8],
    list: &mut [u8],
    n: &[u8],
    number: usize,
) -> io::Result<()> {
    let mut before = [0u8; ROOM];
    bytes::copy(&mut before, image);
    let left = operation(to, group, image, list, n)?;
    print::finish(to, left, bytes::starts_with(&before, image), number)
}

// The image's length for an operation: n and i give it anew.
fn image_length(n: &[u8], old: usize) -> usize {
    let op = bytes::get(n, 0);
    match op {
        b'n' => IMAGE,
        b'i' => numbers::at(n, 1),
        _ => old,
    }
}

// Plays the line with this number, given up to its label, and gives the image's length from then on.
fn numbered(
    to: &impl Print,
    space: &mut [u8],
    list: &mut [u8],
    old: usize,
    n: &[u8],
    number: usize,
) -> io::Result<usize> {
    let group = forms::group_of(n);
    if let Some(Group::Conversions) = group {
        return conversions::play(to, space, old, n, number);
    }
    let length = image_length(n, old);
    if space.len() < length {
        print::bad(to, number)?;
        return Ok(old);
    }
    perform(to, group, &mut space[..length], list, n, number)?;
    Ok(length)
}

// Whether a line has an operation.
fn skipped(s: &[u8]) -> bool {
    matches!(bytes::get(s, 0), 0 | b'#')
}

// Plays a line, and gives the image's length from then on.
fn line(
    to: &impl Print,
    space: &mut [u8],
    list: &mut [u8],
    old: usize,
    s: &[u8],
    number: usize,
) -> io::Result<usize> {
    if skipped(s) {
        return Ok(old);
    }
    let (n, label) = lines::parts(s);
    print::label(to, label)?;
    numbered(to, space, list, old, n, number)
}

// Plays all lines, one after the other.
pub fn play(to: &impl Print, space: &mut [u8], list: &mut [u8], s: &[u8]) -> io::Result<()> {
    let mut old: usize = 0;
    for (i, ended) in s.split_inclusive(|b| *b == b'\n').enumerate() {
        old = line(to, space, list, old, lines::without_end(ended), i + 1)?;
    }
    Ok(())
}
