// Stable histories in packed maps (document 02, W4): whether all but one are, and what a message's map shows of them.
#![tactic(auto)]

ghost use Rattle.std.specs.Prelude.{◌≡◌, ◌+◌, ◌≤◌, length};
ghost use Rattle.octets.specs.Bytes.{put, part};
ghost use Rattle.marks.specs.Packed.{width, places, history_size, unpack_history, present_in};
ghost use Rattle.maps.specs.Heard.{stable_entry, others_stable};
ghost use Rattle.maps.specs.News.{informed_of};
ghost use Rattle.maps.specs.Packed.{entries, map_size, pack_map, map_in};
ghost use Rattle.maps.specs.Internal.Fitting.{Exact};
ghost use Rattle.maps.specs.Internal.Informing.{Apart, shown_entry, informed_at};

use maps::ENTRIES;

// Whether the history packed at from shows that the one at at, not stable yet, was.
fn shows(s: &[u8], from: usize, at: usize) -> bool
    requires { (from + history_size width places ≤ length s.now) × (at + history_size width places ≤ length s.now) }
    ensures { result ≡ shown_entry
        (present_in (part at (history_size width places) s.now)) (unpack_history width places (part at (history_size width places) s.now))
        (present_in (part from (history_size width places) s.now)) (unpack_history width places (part from (history_size width places) s.now)) }
{
    packed_histories::may_show(s, from, at)
        && packed_histories::present(s, from)
        && packed_histories::load(s, at).shown_stable(packed_histories::load(s, from))
}

// The entry packed at at after the message's, at from; the receiver's own stays.
fn inform_at(image: &mut [u8], from: usize, at: usize, own: bool)
    requires { (from + history_size width places ≤ length image.old) × (at + history_size width places ≤ length image.old) }
    ensures { image.new ≡ informed_at width places image.old at own
        (present_in (part from (history_size width places) image.old)) (unpack_history width places (part from (history_size width places) image.old)) }
{
    if !own && shows(image, from, at) {
        let h = packed_histories::load(image, at).stabilize();
        packed_histories::store(h, image, at);
    }
}

// Transactor t's map at at after the news of a message's, at from; only entries that change are stored.
pub fn inform(image: &mut [u8], from: usize, at: usize, t: usize)
    requires { (from + map_size width places entries ≤ length image.old) × (at + map_size width places entries ≤ length image.old)
        × Apart (map_size width places entries) from at × Exact width places entries image.old at }
    ensures { image.new ≡ put at (pack_map width places entries
        (informed_of entries t (map_in width places entries image.old at) (map_in width places entries image.old from))) image.old }
{
    for i in 0..ENTRIES {
        let step = marks::SIZE * i;
        inform_at(image, from + step, at + step, i == t);
    }
}

// Whether every entry of the map at at but transactor t's is stable.
pub fn others_stable(s: &[u8], at: usize, t: usize) -> bool
    requires { at + map_size width places entries ≤ length s.now }
    ensures { result ≡ others_stable entries t (map_in width places entries s.now at) }
{
    (0..ENTRIES).all(|i| stable_entry(s, at + marks::SIZE * i, i == t))
}

// Whether the entry at at is the transactor's own, or absent, or stable.
fn stable_entry(s: &[u8], at: usize, own: bool) -> bool
    requires { at + history_size width places ≤ length s.now }
    ensures { result ≡ stable_entry own (present_in (part at (history_size width places) s.now)) (unpack_history width places (part at (history_size width places) s.now)) }
{
    own || !packed_histories::present(s, at) || packed_histories::load(s, at).stable
}
