// What each transactor needs of a group: worked out once, so that a group is then tested by a few words; the least group with one, and how many are ready.
#![tactic(auto)]

pub mod closure;

ghost use Rattle.std.specs.Prelude.{◌≡◌, ◌+◌, ◌≤◌, ◌<◌, false, max, MatchOption};
ghost use Rattle.rules.specs.Layout.{base, history_bytes, image_bytes};
ghost use Rattle.rules.specs.Pack.{unpack};
ghost use Rattle.image.specs.Formed.{state_in};
ghost use Rattle.rules.specs.Internal.Closure as definitions;
ghost use Rattle.rules.specs.Internal.Closure.{Presents, Kept, asked_at, pair_asks, able, Row, Needed};
ghost use Rattle.needs.specs.Internal.Asking.{asks_number};

use group::{Present, checkpointed, in_group, is_full, presents};
use image::formed::Formed;
use image::layout::{CREATION, FIRST_TRANSACTOR, STATE, TRANSACTOR, TRANSACTORS};
use lists::groups::{Needs, is_inside, is_named};
use marks::History;

// What a history asks of a group.
#[derive(Clone, Copy, Debug, PartialEq, Eq)]
enum Asks {
    // Nothing.
    Nothing,
    // That it names the history's transactor.
    Member,
    // What no group has.
    More,
}

impl Asks {
    // The more of the two.
    fn max(self, other: Asks) -> Asks
        ensures { asks_number result ≡ max (asks_number self) (asks_number other) }
    {
        match (self, other) {
            (Asks::More, _) | (_, Asks::More) => Asks::More,
            (Asks::Member, _) | (_, Asks::Member) => Asks::Member,
            (Asks::Nothing, Asks::Nothing) => Asks::Nothing,
        }
    }
}

// Every transactor.
const ALL: u16 = 65535;

// What the history at at, if there is one, of transactor u asks of a group of stable ones. h is kept of u.
fn asked(image: &Formed<'_>, stable: u16, at: usize, u: usize, h: History) -> Asks
    requires { (at + history_bytes base ≤ image_bytes base) × (u < base.transactors) × Kept (state_in image.now) stable u h }
    ensures { asks_number result ≡ asked_at base image.now.bytes.now stable at u }
{
    if !packed_histories::present(image.bytes, at) {
        return Asks::Nothing;
    }
    if in_group(image, stable, at, u, h) {
        return Asks::Member;
    }
    if checkpointed(image, stable, at, u, h) {
        return Asks::Nothing;
    }
    Asks::More
}

// What the entries u of the state and creation maps of transactor t ask: the more of the two.
fn pair_asks(image: &Formed<'_>, stable: u16, t: usize, u: usize, h: History) -> Asks
    requires { (t < base.transactors) × (u < base.transactors) × Kept (state_in image.now) stable u h }
    ensures { asks_number result ≡ pair_asks base image.now.bytes.now stable t u }
{
    let at = FIRST_TRANSACTOR + TRANSACTOR * t;
    let state = asked(image, stable, at + STATE + marks::SIZE * u, u, h);
    let creation = asked(image, stable, at + CREATION + marks::SIZE * u, u, h);
    state.max(creation)
}

// Whom transactor t needs of a group that is ready: left at the first entry that asks for more than a group has. None if it is in no such
// group.
fn need_of(image: &Formed<'_>, kept: Present, t: usize) -> Option<u16>
    requires { Presents base (state_in image.now) 65535 kept.own kept.stable × (t < base.transactors) }
    ensures { MatchOption result (able base image.now.bytes.now kept.stable t ≡ false) (Row base image.now.bytes.now kept.stable t) }
{
    if !is_named(kept.stable, t) || is_full(image, t) {
        return None;
    }
    let mut need: u16 = 0;
    for u in 0..TRANSACTORS {
        match pair_asks(image, kept.stable, t, u, kept.own[u]) {
            Asks::Nothing => {}
            Asks::Member => need += 1u16 << u,
            Asks::More => return None,
        }
    }
    Some(need)
}

// What all need, with the own histories kept.
pub fn needs_of(image: &Formed<'_>) -> Needs
    ensures { Needed base image.now.bytes.now result.need result.able }
{
    let kept = presents(image, ALL);
    let mut list = [0u16; 16];
    let mut able: u16 = 0;
    for t in 0..TRANSACTORS {
        if let Some(need) = need_of(image, kept, t) {
            list[t] = need;
            able += 1u16 << t;
        }
    }
    Needs { need: list, able }
}

// Whether every transactor that the group names is able, and whom it needs is named.
pub fn meets(needs: Needs, group: u16) -> bool
    ensures { result ≡ definitions.meets needs.need needs.able group }
{
    is_inside(group, needs.able)
        && (0..TRANSACTORS).all(|t| !is_named(group, t) || is_inside(needs.need[t], group))
}
