// Dependence maps (document 01: maps) in their packed form: loaded, joined by value, compared, tested for form.
#![tactic(auto)]

ghost use Rattle.std.specs.Prelude.{◌≡◌, ◌+◌, ◌≤◌, length};
ghost use Rattle.octets.specs.Bytes.{part};
ghost use Rattle.marks.specs.Packed.{width, places, history_size, rest_size, ramp_of, history_in, present_in};
ghost use Rattle.maps.specs.Map.{empty_map, join_of, first_superseded, answer_of, any_unrelated};
ghost use Rattle.maps.specs.Internal.Comparing.{relation_entry};
ghost use Rattle.maps.specs.Packed.{entries, map_size, unpack_map, map_in, formed_entry, formed_map};
ghost use Rattle.maps.specs.Internal.Fitting.{Bounded, looked};

use maps::{Comparisons, DependenceMap, ENTRIES, SIZE};
use marks::{History, Relation};

// How many entries of the map packed from at on are looked at: none of one without entries, whose bytes take one test. It is not made
// where the first entry is held.
pub fn looked_at(s: &[u8], at: usize) -> usize
    requires { at + map_size width places entries ≤ length s.now }
    ensures { (result ≡ looked entries (part at (map_size width places entries) s.now)) × (result ≤ entries) }
{
    if !packed_histories::present(s, at) && octets::all_zero(s, at, SIZE) {
        return 0;
    }
    ENTRIES
}

// Reads what the packed form from at on holds into a map without entries. It is lent and not passed on: as measured, a map that is
// passed on is copied. Inlined, since a call of its own has each byte read anew: it can't tell the map from the bytes.
#[inline(always)]
pub fn load_into(r: &mut DependenceMap, s: &[u8], at: usize)
    requires room { at + map_size width places entries ≤ length s.now }
    requires empty { r.old ≡ empty_map places entries }
    ensures { r.new ≡ map_in width places entries s.now at }
{
    for i in 0..looked_at(s, at) {
        let from = at + marks::SIZE * i;
        r.held[i] = packed_histories::present(s, from);
        r.histories[i] = packed_histories::load(s, from);
    }
}

// What the packed form from at on holds. In a call of its own: only a new asks for it, and inlined it would take its room on the stack in
// every step.
#[inline(never)]
pub fn load(s: &[u8], at: usize) -> DependenceMap
    requires { at + map_size width places entries ≤ length s.now }
    ensures { result ≡ unpack_map width places entries (part at (map_size width places entries) s.now) }
{
    let mut r = DependenceMap::empty();
    load_into(&mut r, s, at);
    r
}

// The map packed at left, by value, joined with the one packed at right, whose entries are read one by one.
pub fn joined(s: &[u8], left: usize, right: usize) -> DependenceMap
    requires { (left + map_size width places entries ≤ length s.now) × (right + map_size width places entries ≤ length s.now) }
    ensures { result ≡ join_of entries (map_in width places entries s.now left) (map_in width places entries s.now right) }
{
    let mut r = DependenceMap::empty();
    load_into(&mut r, s, left);
    for i in 0..looked_at(s, right) {
        let at = right + marks::SIZE * i;
        let p = r.held[i];
        let x = r.histories[i];
        let q = packed_histories::present(s, at);
        let y = packed_histories::load(s, at);
        if maps::chooses_right(p, x, q, y) {
            r.held[i] = q;
            r.histories[i] = y;
        }
    }
    r
}

// What the comparison of the entry packed at at with x, if it is held, says: the same where one is not held. It is loaded only to be
// compared.
fn relation_at(s: &[u8], at: usize, p: bool, x: History) -> Relation
    requires { (at + history_size width places ≤ length s.now) × (x.count ≤ places) }
    ensures { result ≡ relation_entry (present_in (part at (history_size width places) s.now)) (history_in width places s.now at) p x }
{
    if !packed_histories::present(s, at) || !p {
        return Relation::Same;
    }
    let y = packed_histories::load(s, at);
    y.compare(x)
}

// The map packed from at on compared with it: one comparison an entry, from the last entry to the first.
pub fn compare(m: DependenceMap, s: &[u8], at: usize) -> Comparisons
    requires { (at + map_size width places entries ≤ length s.now) × Bounded places m }
    ensures { (result.unrelated ≡ any_unrelated entries (map_in width places entries s.now at) m)
        × (answer_of result.packed ≡ first_superseded entries (map_in width places entries s.now at) m)
        × (answer_of result.own ≡ first_superseded entries m (map_in width places entries s.now at)) }
{
    let mut unrelated = false;
    let mut packed = None;
    let mut own = None;
    for i in (0..ENTRIES).rev() {
        let from = at + marks::SIZE * i;
        match relation_at(s, from, m.held[i], m.histories[i]) {
            Relation::LeftSuperseded => packed = Some(i),
            Relation::RightSuperseded => own = Some(i),
            Relation::Unrelated => unrelated = true,
            Relation::Same | Relation::LeftCheckpointed | Relation::RightCheckpointed => {}
        }
    }
    Comparisons {
        unrelated,
        packed,
        own,
    }
}

fn formed_entry(s: &[u8], at: usize, known: bool, limit: u8, ramp: &[u8]) -> bool
    requires { (at + history_size width places ≤ length s.now) × (limit ≤ places) × (ramp.now ≡ ramp_of (rest_size width places)) }
    ensures { result ≡ formed_entry width limit known (part at (history_size width places) s.now) }
{
    if known {
        packed_histories::formed(s, at, limit, ramp)
    } else {
        octets::all_zero(s, at, marks::SIZE)
    }
}

// Whether the bytes of a packed map from at on are well-formed, the first opened transactors being opened, where a list may have
// limit entries.
pub fn formed(s: &[u8], at: usize, opened: usize, limit: u8) -> bool
    requires { (at + map_size width places entries ≤ length s.now) × (limit ≤ places) }
    ensures { result ≡ formed_map width places entries limit opened (part at (map_size width places entries) s.now) }
{
    let end = looked_at(s, at);
    let ramp = packed_histories::ramp();
    (0..end).all(|i| formed_entry(s, at + marks::SIZE * i, i < opened, limit, &ramp))
}
