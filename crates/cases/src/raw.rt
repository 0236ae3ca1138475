// Bytes of the image, by hand.
ghost use Rattle.std.specs.Prelude.{◌<◌};

use crate::print::Left;
use crate::{bytes, numbers, print};
use std::io;

// i: an image of one byte.
fn filled(image: &mut [u8], b: usize) -> Left {
    image.fill((b % 256) as u8);
    Left::Silent
}

// z: whether all bytes are zero.
fn zero(to: &impl Print, image: &[u8]) -> io::Result<Left> {
    print::truth(to, octets::all_zero(image, 0, image.len()))?;
    Ok(Left::Printed)
}

// v: a number of so many bytes, divided by a number and modulo another, if these are given.
fn number(
    to: &impl Print,
    image: &[u8],
    at: usize,
    width: usize,
    by: usize,
    modulo: usize,
) -> io::Result<Left>
    requires { (at < 4294967296) × (width < 4294967296) }
{
    if image.len() < at + width {
        return Ok(Left::Bad);
    }
    let mut x = bytes::packed(image, at, width);
    if 0 < by {
        x /= by;
    }
    if 0 < modulo {
        x %= modulo;
    }
    print::number(to, x)?;
    Ok(Left::Printed)
}

// x: so many bytes from at on.
fn row(to: &impl Print, image: &[u8], at: usize, count: usize) -> io::Result<Left>
    requires { (at < 4294967296) × (count < 4294967296) }
{
    if image.len() < at + count {
        return Ok(Left::Bad);
    }
    print::row(to, image, at, count)?;
    Ok(Left::Printed)
}

pub(crate) fn play(to: &impl Print, image: &mut [u8], n: &[u8]) -> io::Result<Left> {
    let op = bytes::get(n, 0);
    let a = numbers::at(n, 1);
    let b = numbers::at(n, 2);
    match op {
        b'i' => Ok(filled(image, b)),
        b'z' => zero(to, image),
        b'p' => Ok(numbers::put(image, n)),
        b'v' => number(to, image, a, b, numbers::at(n, 3), numbers::at(n, 4)),
        _ => row(to, image, a, b),
    }
}
