// A receipt: what the addressee rests on, by value, is compared with the message's map, which stands packed in the same image.
ghost use Rattle.std.specs.Prelude.{◌≡◌, ◌+◌, ◌≤◌, ◌<◌, length};
ghost use Rattle.marks.specs.Packed.{width, places};
ghost use Rattle.maps.specs.Map.{join_of, first_superseded, answer_of, any_unrelated};
ghost use Rattle.maps.specs.Packed.{entries, map_size, map_in};
ghost use Rattle.rules.specs.Layout.{base};
ghost use Rattle.rules.specs.State.{transactor_at, message_at, with_transactor};
ghost use Rattle.rules.specs.Pack.{waiting_in, pack, unpack};
ghost use Rattle.rules.specs.Internal.Good.{Good};
ghost use Rattle.transactor.specs.Internal.Effects.{ActsAt, outcome_in, value_in, taken_in, settle_by, accept_by};

use crate::{Acted, news};
use image::layout::{BEHAVIOUR, CREATION, FIRST_TRANSACTOR, STATE, TRANSACTOR, map_at};
use maps::Comparisons;
use rules::outcomes::Outcome;
use rules::refusals::Refusal;
use rules::statuses::Status;

// Busy, with the map of the message in place k for the behaviour map.
fn take_in(image: &mut [u8], t: usize, k: usize)
    requires { Good image.old × (t < base.transactors) × (k < waiting_in base image.old) }
    ensures { image.new ≡ pack base (with_transactor (unpack base image.old) t
        (taken_in (transactor_at (unpack base image.old) t) (message_at (unpack base image.old) k).dependences)) }
{
    let at = FIRST_TRANSACTOR + TRANSACTOR * t;
    let to = at + BEHAVIOUR;
    let from = map_at(k);
    image[at] = 64 * Status::Busy as u8;
    octets::lower(image, to, from - to, maps::SIZE);
}

// The map packed at m compared with those at state and creation, joined: both ways. Of a letter, whose map has no entry, nothing is stale
// or unrelated, and no map is loaded.
pub fn compared(image: &[u8], state: usize, creation: usize, m: usize) -> Comparisons
    requires state_inside { state + map_size width places entries ≤ length image.now }
    requires creation_inside { creation + map_size width places entries ≤ length image.now }
    requires message_inside { m + map_size width places entries ≤ length image.now }
    ensures unrelated { let known = join_of entries (map_in width places entries image.now state) (map_in width places entries image.now creation) in
        result.unrelated ≡ any_unrelated entries (map_in width places entries image.now m) known }
    ensures packed { let known = join_of entries (map_in width places entries image.now state) (map_in width places entries image.now creation) in
        answer_of result.packed ≡ first_superseded entries (map_in width places entries image.now m) known }
    ensures own { let known = join_of entries (map_in width places entries image.now state) (map_in width places entries image.now creation) in
        answer_of result.own ≡ first_superseded entries known (map_in width places entries image.now m) }
{
    if octets::all_zero(image, m, maps::SIZE) {
        return Comparisons {
            unrelated: false,
            packed: None,
            own: None,
        };
    }
    packed_maps::compare(packed_maps::joined(image, state, creation), image, m)
}

// The message in place k, which is not superseded: a fall of transactor t, its addressee, where the comparison says so, or it is taken in
// with its news. What let else takes out is the first superseded transactor's number. Which one it is decides nothing, here and in accept: the
// rules ask whether there is one, and a reply names the addressee.
fn settle(
    image: &mut [u8],
    t: usize,
    k: usize,
    receiver: Option<usize>,
) -> Result<Acted<Outcome>, Refusal>
    requires { Good image.old × (t < base.transactors) × (k < waiting_in base image.old) }
    ensures { ActsAt image.old t
        (settle_by base t (transactor_at (unpack base image.old) t) (message_at (unpack base image.old) k).dependences (answer_of receiver))
        (outcome_in result) (value_in result) image.new }
{
    let Some(first) = receiver else {
        news::hear(image, t, k);
        take_in(image, t, k);
        return Ok(crate::outcome_of(Outcome::Done));
    };
    let at = FIRST_TRANSACTOR + TRANSACTOR * t;
    let end = at + TRANSACTOR;
    crate::rollback(&mut image[at..end], t)
}

// The message in place k, addressed to transactor t: refused as of another book, or dropped, or as settled.
pub fn accept(image: &mut [u8], t: usize, k: usize) -> Result<Acted<Outcome>, Refusal>
    requires { Good image.old × (t < base.transactors) × (k < waiting_in base image.old) }
    ensures { ActsAt image.old t
        (accept_by base t (transactor_at (unpack base image.old) t) (message_at (unpack base image.old) k).dependences)
        (outcome_in result) (value_in result) image.new }
{
    let at = FIRST_TRANSACTOR + TRANSACTOR * t;
    let answers = compared(image, at + STATE, at + CREATION, map_at(k));
    if answers.unrelated {
        return Err(Refusal::Unrelated);
    }
    let Some(first) = answers.packed else {
        return settle(image, t, k, answers.own);
    };
    Ok(crate::outcome_of(Outcome::Dropped))
}
