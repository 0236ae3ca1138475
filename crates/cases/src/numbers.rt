// The numbers of a line, which is given up to its label: a letter, and numbers of at most nine digits, after one space each.
ghost use Rattle.std.specs.Prelude.{◌≤◌, ◌<◌, IfSome};

use crate::bytes;
use crate::print::Left;

// More numbers than an operation takes.
const MANY: usize = 60;

// How many bytes may follow up to the number's end, and one: 10 at a space before a digit; nothing where the byte c, before next, is out
// of place.
fn left_after(left: usize, c: u8, next: u8) -> Option<usize> {
    if c == b' ' && next.is_ascii_digit() {
        return Some(10);
    }
    if c.is_ascii_digit() && 1 < left {
        return Some(left - 1);
    }
    None
}

// How many they are, if the line is understood.
pub(crate) fn count(n: &[u8]) -> Option<usize>
    ensures { IfSome result (λ k. k < 60) }
{
    let mut found: usize = 0;
    let mut left: usize = 1;
    for i in 1..n.len() {
        left = left_after(left, n[i], bytes::get(n, i + 1))?;
        found += usize::from(left == 10);
    }
    if found < MANY { Some(found) } else { None }
}

// Number k of a line, from 1 on; 0 past the last.
pub(crate) fn at(n: &[u8], k: usize) -> usize
    ensures { result < 4294967296 }
{
    let mut value: usize = 0;
    let mut found: usize = 0;
    for i in 1..n.len() {
        let c = n[i];
        if c == b' ' {
            found += 1;
        }
        if found == k {
            value = value % 100000000 * 10 + usize::from(c % 16);
        }
    }
    value
}

// The numbers after the first stand from the place that this gives on.
pub(crate) fn put(s: &mut [u8], n: &[u8]) -> Left {
    let from = at(n, 1);
    let Some(end) = count(n) else {
        return Left::Bad;
    };
    if s.len() + 1 < from + end {
        return Left::Bad;
    }
    for k in 1..end {
        bytes::set(s, from + (k - 1), at(n, k + 1));
    }
    Left::Silent
}
