// Packed histories, compared where they stand: a number is read when a test comes to it, and no list is loaded.
ghost use Rattle.std.specs.Prelude.{◌≡◌, ◌+◌, ◌≤◌, ◌<◌, length, take, get_or};
ghost use Rattle.marks.specs.Incarnation.{same_list, checkpointed_in, same_incarnation};
ghost use Rattle.marks.specs.History.{incarnation_of, Roomy};
ghost use Rattle.marks.specs.Packed.{width, places, history_size, history_in};

use marks::{History, WIDTH};

// How many places of its list are used.
pub fn count(s: &[u8], at: usize) -> usize
    requires { at + history_size width places ≤ length s.now }
    ensures { (result ≡ (history_in width places s.now at).count) × (result ≤ places) }
{
    usize::from(s[at] % 16)
}

// Its life number.
fn number(s: &[u8], at: usize) -> u16
    requires { at + history_size width places ≤ length s.now }
    ensures { result ≡ (history_in width places s.now at).incarnation }
{
    octets::load16(s, at + 1)
}

// Place i of its list.
fn place(s: &[u8], at: usize, i: usize) -> u16
    requires { (at + history_size width places ≤ length s.now) × (i < places) }
    ensures { result ≡ get_or (history_in width places s.now at).checkpoints i 0 }
{
    octets::load16(s, at + 1 + WIDTH + WIDTH * i)
}

// Whether the first n places of the two lists are the same, one by one.
fn agree_few(s: &[u8], a: usize, b: usize, n: usize) -> bool
    requires { (a + history_size width places ≤ length s.now) × (b + history_size width places ≤ length s.now) × (n ≤ places) }
    ensures { result ≡ same_list (take n (history_in width places s.now a).checkpoints) (take n (history_in width places s.now b).checkpoints) }
{
    (0..n).all(|i| place(s, a, i) == place(s, b, i))
}

// The same, eight places at once: the first eight and the last eight of n, which meet.
fn agree(s: &[u8], a: usize, b: usize, n: usize) -> bool
    requires { (a + history_size width places ≤ length s.now) × (b + history_size width places ≤ length s.now) × (n ≤ places) }
    ensures { result ≡ same_list (take n (history_in width places s.now a).checkpoints) (take n (history_in width places s.now b).checkpoints) }
{
    if n < 8 {
        return agree_few(s, a, b, n);
    }
    let x = a + 1 + WIDTH;
    let y = b + 1 + WIDTH;
    let last = WIDTH * (n - 8);
    octets::same16(s, x, y) && octets::same16(s, x + last, y + last)
}

// Document 01: signed, where the one at b is the present mark of the same take.
pub fn checkpointed_in(s: &[u8], a: usize, b: usize) -> bool
    requires { (a + history_size width places ≤ length s.now) × (b + history_size width places ≤ length s.now) }
    ensures { result ≡ checkpointed_in (incarnation_of (history_in width places s.now a)) (incarnation_of (history_in width places s.now b)) }
{
    let n = count(s, a);
    n < count(s, b) && number(s, a) == place(s, b, n) && agree(s, a, b, n)
}

// Whether the two are of one life, where the unused places are zero: but for the first byte, all their bytes are the same.
pub fn same_in(s: &[u8], a: usize, b: usize) -> bool
    requires { (a + history_size width places ≤ length s.now) × (b + history_size width places ≤ length s.now)
        × Roomy places (history_in width places s.now a) × Roomy places (history_in width places s.now b) }
    ensures { result ≡ same_incarnation (incarnation_of (history_in width places s.now a)) (incarnation_of (history_in width places s.now b)) }
{
    count(s, a) == count(s, b)
        && octets::same16(s, a + 1, b + 1)
        && octets::same16(s, a + 1 + 16, b + 1 + 16)
}

// ---- one packed, the other by value

// Whether the first n places of the two lists are the same.
// Stays beside agree_few: one function for both, over a closure that reads a place, would be no plainer.
fn agree_with(s: &[u8], at: usize, h: History, n: usize) -> bool
    requires { (at + history_size width places ≤ length s.now) × (n ≤ places) }
    ensures { result ≡ same_list (take n (history_in width places s.now at).checkpoints) (take n h.checkpoints) }
{
    (0..n).all(|i| place(s, at, i) == h.checkpoints[i])
}

// Whether the packed one is of the life of h.
pub fn same_as(s: &[u8], at: usize, h: History) -> bool
    requires { (at + history_size width places ≤ length s.now) × (h.count ≤ places) }
    ensures { result ≡ same_incarnation (incarnation_of (history_in width places s.now at)) (incarnation_of h) }
{
    let n = count(s, at);
    n == usize::from(h.count) && number(s, at) == h.incarnation && agree_with(s, at, h, n)
}

// Document 01: signed, where h is the present mark of the same take.
pub fn checkpointed_by(s: &[u8], at: usize, h: History) -> bool
    requires { (at + history_size width places ≤ length s.now) × (h.count ≤ places) }
    ensures { result ≡ checkpointed_in (incarnation_of (history_in width places s.now at)) (incarnation_of h) }
{
    let n = count(s, at);
    n < usize::from(h.count) && number(s, at) == h.checkpoints[n] && agree_with(s, at, h, n)
}
