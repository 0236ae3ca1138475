// Dependence maps (document 01: maps) written into an image: whole, empty, joined where they stand.
#![tactic(auto)]

ghost use Rattle.std.specs.Prelude.{◌≡◌, ◌+◌, ◌≤◌, ◌<◌, length};
ghost use Rattle.octets.specs.Bytes.{put, part};
ghost use Rattle.marks.specs.Packed.{width, places, history_size, history_in};
ghost use Rattle.maps.specs.Map.{empty_map, singleton, join_of};
ghost use Rattle.maps.specs.Packed.{entries, map_size, pack_entry, pack_map, map_in};
ghost use Rattle.maps.specs.Internal.Fitting.{MapOk, Bounded, ExactEntry, Exact, joined_bytes};

use maps::{DependenceMap, ENTRIES, SIZE};
use marks::History;

fn store_entry(image: &mut [u8], at: usize, p: bool, h: History)
    requires { (at + history_size width places ≤ length image.old) × (h.count ≤ places) }
    ensures { image.new ≡ put at (pack_entry width places p h) image.old }
{
    if p {
        packed_histories::store(h, image, at);
    } else {
        octets::clear(image, at, marks::SIZE);
    }
}

// Writes the packed form from at on.
pub fn store(m: DependenceMap, image: &mut [u8], at: usize)
    requires { (at + map_size width places entries ≤ length image.old) × Bounded places m }
    ensures { image.new ≡ put at (pack_map width places entries m) image.old }
{
    // A map without entries: one stretch of zeros.
    if m.is_empty() {
        octets::clear(image, at, SIZE);
        return;
    }
    for i in 0..ENTRIES {
        store_entry(image, at + marks::SIZE * i, m.held[i], m.histories[i]);
    }
}

// Writes the packed form of the empty map from at on: in every entry the initial history, which is not present, and so only zeros.
pub fn store_empty(image: &mut [u8], at: usize)
    requires { at + map_size width places entries ≤ length image.old }
    ensures { image.new ≡ put at (pack_map width places entries (empty_map places entries)) image.old }
{
    for i in 0..ENTRIES {
        packed_histories::store_as(false, History::INITIAL, image, at + marks::SIZE * i);
    }
}

// Joins h, if it is held, as the left one into the entry packed at at: it is stored unless a newer one is there.
fn join_at(image: &mut [u8], at: usize, p: bool, h: History)
    requires { (at + history_size width places ≤ length image.old) × (h.count ≤ places) × ExactEntry width places (part at (history_size width places) image.old) }
    ensures { image.new ≡ put at (joined_bytes width places p h (part at (history_size width places) image.old)) image.old }
{
    if !p {
        return;
    }
    let q = packed_histories::present(image, at);
    let y = packed_histories::load(image, at);
    if maps::chooses_right(p, h, q, y) {
        return;
    }
    packed_histories::store(h, image, at);
}

// The map packed at left, by value, joined as the left one into the map packed at right, in which only entries that change are
// stored.
pub fn join_into(image: &mut [u8], left: usize, right: usize)
    requires { (left + map_size width places entries ≤ length image.old) × (right + map_size width places entries ≤ length image.old) × Exact width places entries image.old right }
    ensures { image.new ≡ put right (pack_map width places entries
        (join_of entries (map_in width places entries image.old left) (map_in width places entries image.old right))) image.old }
{
    let mut r = DependenceMap::empty();
    packed_maps::load_into(&mut r, image, left);
    for i in 0..ENTRIES {
        join_at(image, right + marks::SIZE * i, r.held[i], r.histories[i]);
    }
}

// Joins h as the right one into entry i of the map packed at at: it is stored where it is the newer.
fn join_right(image: &mut [u8], at: usize, i: usize, h: History)
    requires { (at + map_size width places entries ≤ length image.old) × (i < entries) × (h.count ≤ places) × Exact width places entries image.old at }
    ensures { image.new ≡ put at (pack_map width places entries
        (join_of entries (map_in width places entries image.old at) (singleton places entries i h))) image.old }
{
    let from = at + marks::SIZE * i;
    let p = packed_histories::present(image, from);
    let x = packed_histories::load(image, from);
    if maps::chooses_right(p, x, true, h) {
        packed_histories::store(h, image, from);
    }
}

// The maps packed at left and right, joined, and then with the history packed at own, that of transactor i: stored from to on, behind all
// three, where the right one's bytes are copied first. No map is passed on.
pub fn join_to(image: &mut [u8], left: usize, right: usize, own: usize, i: usize, to: usize)
    requires { (left + map_size width places entries ≤ to) × (right + map_size width places entries ≤ to) × (own + history_size width places ≤ to)
        × (to + map_size width places entries ≤ length image.old) × (i < entries)
        × MapOk width places entries (map_in width places entries image.old left) × MapOk width places entries (map_in width places entries image.old right)
        × Exact width places entries image.old right }
    ensures { image.new ≡ put to (pack_map width places entries (join_of entries
        (join_of entries (map_in width places entries image.old left) (map_in width places entries image.old right))
        (singleton places entries i (history_in width places image.old own)))) image.old }
{
    octets::raise(image, right, to, SIZE);
    join_into(image, left, to);
    let h = packed_histories::load(image, own);
    join_right(image, to, i, h);
}
