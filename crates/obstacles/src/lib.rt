// Why a group can't be checkpointed (document 01: a volume, signed).
#![tactic(auto)]

ghost use Rattle.std.specs.Prelude.{◌≡◌, ◌+◌, ◌≤◌, ◌<◌};
ghost use Rattle.marks.specs.History.{Roomy};
ghost use Rattle.marks.specs.Packed.{history_in};
ghost use Rattle.rules.specs.Layout.{base, history_bytes, image_bytes};
ghost use Rattle.rules.specs.Pack.{unpack};
ghost use Rattle.rules.specs.Obstacle.{first_of, unstable_at, entry_obstacle, map_obstacle, obstacle_of};
ghost use Rattle.image.specs.Formed.{state_in};
ghost use Rattle.obstacles.specs.Internal.Marks.{mark_obstacle};

use group::{is_live, own};
use image::formed::Formed;
use image::layout::{CREATION, FIRST_TRANSACTOR, STATE, TRANSACTOR, TRANSACTORS, own_at};
use lists::groups::is_named;
use packed_histories::in_place;
use rules::Obstacle;

// Whether transactor t is named and not stable.
fn unstable(image: &Formed<'_>, group: u16, t: usize) -> Option<Obstacle>
    requires { t < base.transactors }
    ensures { result ≡ unstable_at (state_in image.now) group t }
{
    if is_named(group, t) && !own(image, t).stable {
        return Some(Obstacle::Unstable(t as u8));
    }
    None
}

// Why the history of transactor u at at, in a map of transactor t, keeps the group from being checkpointed; none where there is none.
fn history(image: &Formed<'_>, group: u16, t: usize, u: usize, at: usize) -> Option<Obstacle>
    requires { (t < base.transactors) × (u < base.transactors) × (at + history_bytes base ≤ image_bytes base)
        × Roomy base.places (history_in base.width base.places image.now.bytes.now at) }
    ensures { result ≡ mark_obstacle base image.now.bytes.now group t u at }
{
    if !packed_histories::present(image.bytes, at) {
        return None;
    }
    if !is_live(image, u) {
        return Some(Obstacle::SupersededOrAnnihilated(t as u8, u as u8));
    }
    let present = own_at(u);
    if in_place::same_in(image.bytes, at, present) {
        if is_named(group, u) {
            return None;
        }
        return Some(Obstacle::Outside(t as u8, u as u8));
    }
    if in_place::checkpointed_in(image.bytes, at, present) {
        return None;
    }
    Some(Obstacle::SupersededOrAnnihilated(t as u8, u as u8))
}

// The histories of transactor u in the maps of transactor t, state before creation.
pub fn entry(image: &Formed<'_>, group: u16, t: usize, u: usize) -> Option<Obstacle>
    requires { (t < base.transactors) × (u < base.transactors) }
    ensures { result ≡ entry_obstacle (state_in image.now) group t u }
{
    let at = FIRST_TRANSACTOR + TRANSACTOR * t;
    let state = at + STATE + marks::SIZE * u;
    let creation = at + CREATION + marks::SIZE * u;
    match history(image, group, t, u, state) {
        None => history(image, group, t, u, creation),
        found => found,
    }
}

// The maps of transactor t, if it is named: left at the first entry that is one.
fn maps_of(image: &Formed<'_>, group: u16, t: usize) -> Option<Obstacle>
    requires { t < base.transactors }
    ensures { result ≡ map_obstacle base (state_in image.now) group t }
{
    if !is_named(group, t) {
        return None;
    }
    (0..TRANSACTORS).find_map(|u| entry(image, group, t, u))
}

// The first named transactor that is not stable.
fn first_unstable(image: &Formed<'_>, group: u16) -> Option<Obstacle>
    ensures { result ≡ first_of (unstable_at (state_in image.now) group) 0 base.transactors }
{
    (0..TRANSACTORS).find_map(|t| unstable(image, group, t))
}

// The first history that is one, transactor by transactor.
fn first_history(image: &Formed<'_>, group: u16) -> Option<Obstacle>
    ensures { result ≡ first_of (map_obstacle base (state_in image.now) group) 0 base.transactors }
{
    (0..TRANSACTORS).find_map(|t| maps_of(image, group, t))
}

// Why the group can't be checkpointed now, or none exactly if it meets the rule of signing.
pub fn obstacle_of(image: &Formed<'_>, group: u16) -> Option<Obstacle>
    ensures { result ≡ obstacle_of base (state_in image.now) group }
{
    match first_unstable(image, group) {
        None => first_history(image, group),
        found => found,
    }
}
