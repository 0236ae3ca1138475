// What rests on what, for a caller that asks: who rests on a transactor's present incarnation (document 01: a take's present life).
#![tactic(auto)]

ghost use Rattle.std.specs.Prelude.{ℕ, ◌≡◌, ◌+◌, ◌≤◌, ◌<◌};
ghost use Rattle.marks.specs.History.{Roomy};
ghost use Rattle.marks.specs.Packed.{history_in};
ghost use Rattle.rules.specs.Layout.{base, history_bytes, image_bytes};
ghost use Rattle.rules.specs.Refusals.{named};
ghost use Rattle.rules.specs.Pack.{waiting_in, unpack};
ghost use Rattle.rules.specs.ReadyGroups.{how_many};
ghost use Rattle.rules.specs.Dependents.{rests_at, works_at, carries_at, group_of, through_at, dependents_of};
ghost use Rattle.image.specs.Formed.{state_in};
ghost use Rattle.rules.specs.Internal.Held.{present_at, Listed};

use group::is_live;
use image::formed::Formed;
use image::layout::{
    BEHAVIOUR, CREATION, DEPENDENCES, FIRST_MESSAGE, FIRST_TRANSACTOR, MESSAGE, STATE, TRANSACTOR,
    TRANSACTORS, own_at,
};
use image::{head, messages};
use packed_histories::in_place;
use rules::Dependents;
use rules::statuses::Status;

// Whether there is a history at at of the present incarnation of transactor t.
fn holds(image: &Formed<'_>, at: usize, t: usize) -> bool
    requires { (at + history_bytes base ≤ image_bytes base) × (t < base.transactors) × Roomy base.places (history_in base.width base.places image.now.bytes.now at) }
    ensures { result ≡ present_at base image.now.bytes.now at t }
{
    packed_histories::present(image.bytes, at) && in_place::same_in(image.bytes, at, own_at(t))
}

// Whether transactor u is live and has it in its state or creation map.
fn rests(image: &Formed<'_>, t: usize, u: usize) -> bool
    requires { (t < base.transactors) × (u < base.transactors) }
    ensures { result ≡ rests_at (state_in image.now) t u }
{
    let at = FIRST_TRANSACTOR + TRANSACTOR * u;
    let state = at + STATE + marks::SIZE * t;
    let creation = at + CREATION + marks::SIZE * t;
    is_live(image, u) && (holds(image, state, t) || holds(image, creation, t))
}

// Whether transactor u is busy and has it in its behaviour map.
fn works(image: &Formed<'_>, t: usize, u: usize) -> bool
    requires { (t < base.transactors) × (u < base.transactors) }
    ensures { result ≡ works_at (state_in image.now) t u }
{
    let behaviour = FIRST_TRANSACTOR + TRANSACTOR * u + BEHAVIOUR + marks::SIZE * t;
    match head::status(image.bytes, u) {
        Status::Busy => holds(image, behaviour, t),
        _ => false,
    }
}

// Whether the message in place k has it in its map.
fn carries(image: &Formed<'_>, t: usize, k: usize) -> bool
    requires { (t < base.transactors) × (k < waiting_in base image.now.bytes.now) × (k < base.messages) }
    ensures { result ≡ carries_at (state_in image.now) t k }
{
    let at = FIRST_MESSAGE + MESSAGE * k;
    let entry = at + DEPENDENCES + marks::SIZE * t;
    holds(image, entry, t)
}

// The group of the transactors of which it holds.
pub fn members_where<F: Fn(usize) -> bool>(holds: F) -> u16
    requires { (t : ℕ) → t < base.transactors → F.pre holds t }
    ensures { (t : ℕ) → t < base.transactors → F.post holds t (named result t) }
{
    let mut group: u16 = 0;
    for t in 0..TRANSACTORS {
        if holds(t) {
            group += 1u16 << t;
        }
    }
    group
}

// All that are live and rest on it.
fn resting(image: &Formed<'_>, t: usize) -> u16
    requires { t < base.transactors }
    ensures { result ≡ group_of base.transactors (rests_at (state_in image.now) t) }
{
    members_where(|u| rests(image, t, u))
}

// All that are busy with it.
fn unfinished(image: &Formed<'_>, t: usize) -> u16
    requires { t < base.transactors }
    ensures { result ≡ group_of base.transactors (works_at (state_in image.now) t) }
{
    members_where(|u| works(image, t, u))
}

// How many of the messages that wait have it.
fn carried(image: &Formed<'_>, t: usize) -> u16
    requires { t < base.transactors }
    ensures { result ≡ how_many (waiting_in base image.now.bytes.now) (carries_at (state_in image.now) t) }
{
    let mut count: u16 = 0;
    for k in 0..messages::waiting(image.bytes) {
        if carries(image, t, k) {
            count += 1;
        }
    }
    count
}

// Who rests on each, in its place.
pub fn all_resting(image: &Formed<'_>) -> [u16; 16]
    ensures { Listed base (state_in image.now) base.transactors result }
{
    let mut list = [0u16; 16];
    for (u, group) in list.iter_mut().enumerate() {
        *group = resting(image, u);
    }
    list
}

// Who rests on the present incarnation of transactor t, who is busy with it, and how many messages carry it; who rests on it through
// others is handed in.
pub fn dependents_of(image: &Formed<'_>, t: usize, through: u16) -> Dependents
    requires { (t < base.transactors) × (through ≡ group_of base.transactors (through_at (state_in image.now) base.transactors t)) }
    ensures { result ≡ dependents_of base (state_in image.now) t }
{
    Dependents {
        resting: resting(image, t),
        through,
        unfinished: unfinished(image, t),
        carried: carried(image, t),
    }
}
