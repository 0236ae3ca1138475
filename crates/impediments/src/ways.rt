// Who rests on each transactor through others, and by which transactor a chain leads there from one of them: both at once, with one transactor
// more to pass through at a time.
ghost use Rattle.std.specs.Prelude.{◌≡◌, ◌<◌};
ghost use Rattle.std.specs.Int.Bits.{bit_or};
ghost use Rattle.octets.specs.Bytes.{pick};
ghost use Rattle.rules.specs.Layout.{base};
ghost use Rattle.rules.specs.Refusals.{named};
ghost use Rattle.rules.specs.Pack.{unpack};
ghost use Rattle.image.specs.Formed.{state_in};
ghost use Rattle.impediments.specs.Internal.Ways.{Filled, first_row, itself, wider_row, kept_next, Reached};

use grounds::all_resting;
use image::formed::Formed;
use image::layout::TRANSACTORS;
use lists::groups::is_named;

// For each transactor: who rests on it, and the next one on a chain to it.
#[derive(Clone, Copy)]
pub struct Reach {
    // Who rests on it, directly or through others; itself among them, a bit each.
    pub through: [u16; 16],
    // The next on a chain to it from the one that is asked about.
    pub next: [u8; 16],
}

// The row, with the other if it names transactor k.
fn wider(row: u16, other: u16, k: usize) -> u16
    requires { k < base.transactors }
    ensures { result ≡ pick (named row k) (bit_or row other) row }
{
    if is_named(row, k) { row | other } else { row }
}

// The first if the row names transactor t, else the second.
fn kept(row: u16, t: usize, first: u8, second: u8) -> u8
    requires { t < base.transactors }
    ensures { result ≡ pick (named row t) first second }
{
    if is_named(row, t) { first } else { second }
}

// Whoever rests on it directly, and itself; it is the next.
fn direct(resting: [u16; 16]) -> Reach
    ensures { Filled (first_row resting) base.transactors result.through × Filled itself base.transactors result.next }
{
    let mut through = [0u16; 16];
    let mut next = [0u8; 16];
    for c in 0..TRANSACTORS {
        through[c] = resting[c] | (1u16 << c);
        next[c] = c as u8;
    }
    Reach { through, next }
}

// With transactor k to pass through: who rests on k rests on all that k rests on, and the next is the next to k.
fn one_more(reach: Reach, t: usize, k: usize) -> Reach
    requires { (t < base.transactors) × (k < base.transactors) }
    ensures { Filled (wider_row reach.through k) base.transactors result.through × Filled (kept_next reach.through reach.next t k) base.transactors result.next }
{
    let mut through = [0u16; 16];
    let mut next = [0u8; 16];
    let by = reach.through[k];
    let other = reach.next[k];
    for c in 0..TRANSACTORS {
        let row = reach.through[c];
        through[c] = wider(row, by, k);
        next[c] = kept(row, t, reach.next[c], other);
    }
    Reach { through, next }
}

// With all to pass through.
pub fn reach_of(image: &Formed<'_>, t: usize) -> Reach
    requires { t < base.transactors }
    ensures { Reached base (state_in image.now) base.transactors t result.through result.next }
{
    let mut reach = direct(all_resting(image));
    for k in 0..TRANSACTORS {
        reach = one_more(reach, t, k);
    }
    reach
}
