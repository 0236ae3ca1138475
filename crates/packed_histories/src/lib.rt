// Histories (document 01: marks) in their packed form: stored, loaded, tested for form.
#![tactic(auto)]

pub mod in_place;

ghost use Rattle.std.specs.Prelude.{◌≡◌, ◌+◌, ◌-◌, ◌*◌, ◌≤◌, length};
ghost use Rattle.octets.specs.Bytes.{put, part, chunks, tabulate, all_zero};
ghost use Rattle.octets.specs.Numbers.{of_be, be};
ghost use Rattle.marks.specs.Internal.News.{may_show};
ghost use Rattle.marks.specs.Packed.{width, places, history_size, rest_size, ramp_of, bit, pack_number_at, pack_history, unpack_history, load_number_at, present_in, formed_history};
ghost use Rattle.packed_histories.specs.Internal.Absent.{pack_as};

use marks::{History, SIZE, WIDTH};

// Writes the packed form from at on.
pub fn store(h: History, image: &mut [u8], at: usize)
    requires { (at + history_size width places ≤ length image.old) × (h.count ≤ places) }
    ensures { image.new ≡ put at (pack_history width places h) image.old }
{
    store_as(true, h, image, at);
}

// Writes the same form with or without its presence bit; of the initial history, without it, only zeros.
pub fn store_as(present: bool, h: History, image: &mut [u8], at: usize)
    requires { (at + history_size width places ≤ length image.old) × (h.count ≤ places) }
    ensures { image.new ≡ put at (pack_as width places present h) image.old }
{
    image[at] = 128 * u8::from(present) + 64 * u8::from(h.stable) + h.count;
    octets::store16(image, at + 1, h.incarnation);
    store_numbers(image, at + 1 + WIDTH, h.checkpoints);
}

// What the packed form from at on holds; of zeros, the initial history.
pub fn load(s: &[u8], at: usize) -> History
    requires { at + history_size width places ≤ length s.now }
    ensures { result ≡ unpack_history width places (part at (history_size width places) s.now) }
{
    let head = s[at];
    History {
        stable: 64 <= head % 128,
        count: head % 16,
        incarnation: octets::load16(s, at + 1),
        checkpoints: load_numbers(s, at + 1 + WIDTH),
    }
}

// Whether a history is present in the packed form from at on.
pub fn present(s: &[u8], at: usize) -> bool
    requires { at + history_size width places ≤ length s.now }
    ensures { result ≡ present_in (part at (history_size width places) s.now) }
{
    128 <= s[at]
}

// Whether the one packed at from can show anything of the one packed at at, by their first bytes alone: that one is not stable yet,
// and this one is, or has the longer list.
pub fn may_show(s: &[u8], from: usize, at: usize) -> bool
    requires { (from + history_size width places ≤ length s.now) × (at + history_size width places ≤ length s.now) }
    ensures { result ≡ may_show
        (present_in (part at (history_size width places) s.now)) (unpack_history width places (part at (history_size width places) s.now))
        (present_in (part from (history_size width places) s.now)) (unpack_history width places (part from (history_size width places) s.now)) }
{
    let recorded = s[at];
    let shown = s[from];
    recorded / 64 == 2 && (192 <= shown || recorded % 16 < shown % 16)
}

// Whether the bytes of a packed form from at on are well-formed, where a list may have limit entries; ramp is what ramp() gives.
pub fn formed(s: &[u8], at: usize, limit: u8, ramp: &[u8]) -> bool
    requires { (at + history_size width places ≤ length s.now) × (limit ≤ places) × (ramp.now ≡ ramp_of (rest_size width places)) }
    ensures { result ≡ formed_history width limit (part at (history_size width places) s.now) }
{
    let head = s[at];
    if head < 128 {
        return head == 0 && rest_zero(s, at + 1, 0, ramp);
    }
    // The zero bits stand above the count, and the limit is below them.
    head % 64 <= limit && rest_zero(s, at + 1, WIDTH + WIDTH * (head % 16) as usize, ramp)
}

// The bytes of a packed form but the first.
const REST: usize = SIZE - 1;

// REST zeros, then as many bytes of ones: from REST - used on a mask that hides used bytes.
pub fn ramp() -> [u8; 64]
    ensures { result ≡ ramp_of (rest_size width places) }
{
    let mut r = [255u8; 64];
    octets::clear(&mut r, 0, REST);
    r
}

// Whether the REST bytes from at on but the first used are zero: one test of a fixed length, whatever is used.
#[inline(always)]
fn rest_zero(s: &[u8], at: usize, used: usize, ramp: &[u8]) -> bool
    requires { (at + rest_size width places ≤ length s.now) × (used ≤ rest_size width places) × (ramp.now ≡ ramp_of (rest_size width places)) }
    ensures { result ≡ all_zero (part (at + used) (rest_size width places - used) s.now) }
{
    let from = REST - used;
    let mut any: u8 = 0;
    for i in 0..REST {
        any |= s[at + i] & ramp[from + i];
    }
    any == 0
}

// Writes the places of a list from at on.
fn store_numbers(image: &mut [u8], at: usize, list: [u16; 15])
    requires { at + width * places ≤ length image.old }
    ensures { image.new ≡ put at (chunks places (pack_number_at width list)) image.old }
{
    for (i, n) in list.iter().enumerate() {
        octets::store16(image, at + WIDTH * i, *n);
    }
}

// The places of a list from at on.
fn load_numbers(s: &[u8], at: usize) -> [u16; 15]
    requires { at + width * places ≤ length s.now }
    ensures { result ≡ tabulate places (load_number_at width s.now at) }
{
    let mut list = [0; 15];
    for (i, n) in list.iter_mut().enumerate() {
        *n = octets::load16(s, at + WIDTH * i);
    }
    list
}
