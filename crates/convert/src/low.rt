// Whether an image of the new form has room in the old one: its limits are the greatest, and every number is within one byte, the first
// byte of each zero.
ghost use Rattle.std.specs.Prelude.{◌+◌, ◌*◌, ◌≤◌, not, ◌≡◌, length};
ghost use Rattle.octets.specs.Bytes.{part, every};
ghost use Rattle.rules.specs.Layout.{base, widest, state_at, dependences_at, transactor_address, message_address, image_bytes};
ghost use Rattle.rules.specs.Pack.{unpack};
ghost use Rattle.convert.specs.Convert.{limits_are, too_wide};
ghost use Rattle.convert.specs.Internal.HighBytes.{entry_within, entries_within};

use image::layout::{FIRST_TRANSACTOR, MESSAGES, STATE, TRANSACTOR, TRANSACTORS, map_at};
use image::{limits, messages};

// The limits are those of every image of the old form.
fn limits(s: &[u8]) -> bool
    requires { length s.now ≡ image_bytes base }
    ensures { result ≡ limits_are (unpack base s.now).limits (widest base) }
{
    usize::from(limits::transactors(s)) == TRANSACTORS
        && usize::from(limits::messages(s)) == MESSAGES
        && usize::from(limits::checkpoints(s)) == marks::PLACES
}

// A history: it is not there, or the or of the first bytes of its numbers is zero. No early exit, so that the loop vectorises.
fn history(s: &[u8], at: usize) -> bool
    requires { at + 33 ≤ length s.now }
    ensures { result ≡ entry_within 255 base (part at 33 s.now) }
{
    if s[at] < 128 {
        return true;
    }
    let mut any: u8 = 0;
    for i in 0..1 + marks::PLACES {
        any |= s[at + 1 + 2 * i];
    }
    any == 0
}

// n histories, one after the other.
fn histories(s: &[u8], at: usize, n: usize) -> bool
    requires { at + 33 * n ≤ length s.now }
    ensures { result ≡ entries_within 255 base s.now at n }
{
    (0..n).all(|i| history(s, at + marks::SIZE * i))
}

fn transactors(s: &[u8]) -> bool
    requires { length s.now ≡ image_bytes base }
    ensures { result ≡ every base.transactors (λ t. entries_within 255 base s.now (transactor_address base t + state_at) 48) }
{
    (0..TRANSACTORS).all(|t| {
        let at = FIRST_TRANSACTOR + TRANSACTOR * t + STATE;
        histories(s, at, 3 * maps::ENTRIES)
    })
}

// The n messages that wait.
fn messages(s: &[u8], n: usize) -> bool
    requires { (length s.now ≡ image_bytes base) × (n ≤ base.messages) }
    ensures { result ≡ every n (λ k. entries_within 255 base s.now (message_address base k + dependences_at) 16) }
{
    (0..n).all(|k| histories(s, map_at(k), maps::ENTRIES))
}

pub fn image(s: &[u8]) -> bool
    requires { length s.now ≡ image_bytes base }
    ensures { result ≡ not (too_wide s.now) }
{
    limits(s) && transactors(s) && messages(s, messages::waiting(s))
}
