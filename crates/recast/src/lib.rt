// An image in the other form, well-formed or not: each number with its last byte in W bytes where it has V, all other bytes as they stand.
// One of the two widths is 1, the other 2, so a number's other byte is a zero or is left out.
#![tactic(auto)]

pub mod old;

ghost use Rattle.std.specs.Prelude.{◌≡◌, ◌+◌, ◌*◌, ◌≤◌, length};
ghost use Rattle.octets.specs.Bytes.{put, part, chunks, tabulate};
ghost use Rattle.octets.specs.Numbers.{be, of_be};
ghost use Rattle.marks.specs.Packed.{history_size, pack_number_at, load_number_at};
ghost use Rattle.marks.specs.Internal.Recast.{recast_history};
ghost use Rattle.maps.specs.Internal.Recast.{recast_map};
ghost use Rattle.rules.specs.Layout.{narrow, base, image_bytes};
ghost use Rattle.recast.specs.Internal.Recast.{Widths, record_size, record_at, recast, widened};

use image::layout::{
    DEPENDENCES, FIRST_MESSAGE, FIRST_TRANSACTOR, HEAD, MESSAGES, STATE, TRANSACTORS,
};
use image::limits;

// The histories (document 01: marks) of a transactor's three maps.
const HISTORIES: usize = 3 * maps::ENTRIES;

// A number of V bytes.
fn number<const V: usize>(s: &[u8], at: usize) -> u16
    requires { (1 ≤ V) × (V ≤ 2) × (at + V ≤ length s.now) }
    ensures { result ≡ of_be V (part at V s.now) }
{
    if V == 1 {
        u16::from(s[at])
    } else {
        octets::load16(s, at)
    }
}

// The numbers of a history, one after the other.
fn numbers<const V: usize>(s: &[u8], at: usize) -> [u16; 16]
    requires { (1 ≤ V) × (V ≤ 2) × (at + V * 16 ≤ length s.now) }
    ensures { result ≡ tabulate 16 (load_number_at V s.now at) }
{
    let mut list = [0; 16];
    for (i, n) in list.iter_mut().enumerate() {
        *n = number::<V>(s, at + V * i);
    }
    list
}

// The last W bytes of a number.
fn put_number<const W: usize>(target: &mut [u8], at: usize, n: u16)
    requires { (1 ≤ W) × (W ≤ 2) × (at + W ≤ length target.old) }
    ensures { target.new ≡ put at (be W n) target.old }
{
    if W == 1 {
        target[at] = (n % 256) as u8;
    } else {
        octets::store16(target, at, n);
    }
}

// The numbers of a history.
fn put_numbers<const W: usize>(target: &mut [u8], at: usize, list: [u16; 16])
    requires { (1 ≤ W) × (W ≤ 2) × (at + W * 16 ≤ length target.old) }
    ensures { target.new ≡ put at (chunks 16 (pack_number_at W list)) target.old }
{
    for (i, n) in list.iter().enumerate() {
        put_number::<W>(target, at + W * i, *n);
    }
}

// A history: its flags and count, its incarnation number and its checkpoints. The numbers go by value, so that the compiler turns them all
// at once.
fn history<const V: usize, const W: usize>(source: &[u8], from: usize, target: &mut [u8], to: usize)
    requires { Widths V W × (from + history_size V 15 ≤ length source.now) × (to + history_size W 15 ≤ length target.old) }
    ensures { target.new ≡ put to (recast_history V W 15 (part from (history_size V 15) source.now)) target.old }
{
    target[to] = source[from];
    let list = numbers::<V>(source, from + 1);
    put_numbers::<W>(target, to + 1, list);
}

// n histories, one after the other.
fn histories<const V: usize, const W: usize>(
    source: &[u8],
    from: usize,
    target: &mut [u8],
    to: usize,
    n: usize,
)
    requires { Widths V W × (from + history_size V 15 * n ≤ length source.now) × (to + history_size W 15 * n ≤ length target.old) }
    ensures { target.new ≡ put to (recast_map V W 15 n (part from (history_size V 15 * n) source.now)) target.old }
{
    let a = 1 + V + V * marks::PLACES;
    let b = 1 + W + W * marks::PLACES;
    for i in 0..n {
        history::<V, W>(source, from + a * i, target, to + b * i);
    }
}

// n records, each of a front of some bytes, which stay as they are, and of some histories.
fn records<const V: usize, const W: usize>(
    source: &[u8],
    from: usize,
    target: &mut [u8],
    to: usize,
    front: usize,
    many: usize,
    n: usize,
)
    requires { Widths V W × (front ≤ 9) × (many ≤ 48) × (from + record_size V 15 front many * n ≤ length source.now) × (to + record_size W 15 front many * n ≤ length target.old) }
    ensures { target.new ≡ put to (chunks n (record_at V W 15 front many from source.now)) target.old }
{
    let a = front + (1 + V + V * marks::PLACES) * many;
    let b = front + (1 + W + W * marks::PLACES) * many;
    for k in 0..n {
        let at = from + a * k;
        let end = at + front;
        let here = to + b * k;
        octets::write(target, here, &source[at..end]);
        histories::<V, W>(source, end, target, here + front, many);
    }
}

// An image of the old form in the new one: the greatest limits after the head.
pub fn wider(source: &[u8], target: &mut [u8])
    requires { (length source.now ≡ image_bytes narrow) × (length target.old ≡ image_bytes base) }
    ensures { target.new ≡ widened source.now }
{
    octets::write(target, 0, &source[..HEAD]);
    limits::store(
        target,
        TRANSACTORS as u8,
        MESSAGES as u8,
        marks::PLACES as u8,
    );
    records::<1, 2>(
        source,
        HEAD,
        target,
        FIRST_TRANSACTOR,
        STATE,
        HISTORIES,
        TRANSACTORS,
    );
    records::<1, 2>(
        source,
        old::FIRST_MESSAGE,
        target,
        FIRST_MESSAGE,
        DEPENDENCES,
        maps::ENTRIES,
        MESSAGES,
    );
}

// An image of the new form in the old one, without the limits.
pub fn narrower(source: &[u8], target: &mut [u8])
    requires { (length source.now ≡ image_bytes base) × (length target.old ≡ image_bytes narrow) }
    ensures { target.new ≡ recast base narrow source.now }
{
    octets::write(target, 0, &source[..HEAD]);
    records::<2, 1>(
        source,
        FIRST_TRANSACTOR,
        target,
        HEAD,
        STATE,
        HISTORIES,
        TRANSACTORS,
    );
    records::<2, 1>(
        source,
        FIRST_MESSAGE,
        target,
        old::FIRST_MESSAGE,
        DEPENDENCES,
        maps::ENTRIES,
        MESSAGES,
    );
}
