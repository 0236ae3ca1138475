// Dependence maps, packed in the image: what the crate maps decides.
ghost use Rattle.std.specs.Prelude.{◌<◌};

use crate::print::Left;
use crate::{bytes, numbers, print};
use std::io;

// J: the map at a joined with that at b, from at on.
fn join(image: &mut [u8], a: usize, b: usize, at: usize) -> Left
    requires { (a < 4294967296) × (b < 4294967296) × (at < 4294967296) }
{
    let n = image.len();
    if n < a + maps::SIZE || n < b + maps::SIZE || n < at + maps::SIZE {
        return Left::Bad;
    }
    let left = packed_maps::load(image, a);
    let right = packed_maps::load(image, b);
    stored_maps::store(left.join(right), image, at);
    Left::Silent
}

// E: whether the map at at is empty.
fn empty(to: &impl Print, image: &[u8], at: usize) -> io::Result<Left>
    requires { at < 4294967296 }
{
    if image.len() < at + maps::SIZE {
        return Ok(Left::Bad);
    }
    print::truth(to, packed_maps::load(image, at).is_empty())?;
    Ok(Left::Printed)
}

// M: the first take whose mark in the map at at is stale by that in the maps at a and b joined.
fn compare(to: &impl Print, image: &[u8], at: usize, a: usize, b: usize) -> io::Result<Left>
    requires { (a < 4294967296) × (b < 4294967296) × (at < 4294967296) }
{
    let n = image.len();
    if n < a + maps::SIZE || n < b + maps::SIZE || n < at + maps::SIZE {
        return Ok(Left::Bad);
    }
    let known = packed_maps::joined(image, a, b);
    let found = packed_maps::compare(known, image, at).packed;
    match found {
        Some(t) => print::number(to, t),
        None => print::truth(to, false),
    }?;
    Ok(Left::Printed)
}

pub(crate) fn play(to: &impl Print, image: &mut [u8], n: &[u8]) -> io::Result<Left> {
    let op = bytes::get(n, 0);
    let a = numbers::at(n, 1);
    let b = numbers::at(n, 2);
    let c = numbers::at(n, 3);
    match op {
        b'J' => Ok(join(image, a, b, c)),
        b'E' => empty(to, image, a),
        _ => compare(to, image, a, b, c),
    }
}
