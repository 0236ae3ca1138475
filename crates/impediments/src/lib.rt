// Why no group with a transactor could be checkpointed (document 01: no volume with a take could be signed).
#![tactic(auto)]

pub mod ways;

ghost use Rattle.std.specs.Prelude.{◌≡◌, ◌<◌};
ghost use Rattle.rules.specs.Layout.{base};
ghost use Rattle.rules.specs.Pack.{unpack};
ghost use Rattle.rules.specs.Impediment.{withdrawn_by, lost_ground, impedes_at, lowest_for, impediment_of};
ghost use Rattle.image.specs.Formed.{state_in};
ghost use Rattle.image.specs.Internal.Search.{Found};
ghost use Rattle.impediments.specs.Internal.Manners.{manner_number};
ghost use Rattle.impediments.specs.Internal.Ways.{Reached};

use crate::ways::{Reach, reach_of};
use group::{is_full, own};
use image::formed::Formed;
use image::layout::TRANSACTORS;
use lists::groups::is_named;
use obstacles::entry;
use rules::Impediment;

// How a transactor is in the way, in the order in which it is looked for.
#[derive(Clone, Copy, Debug, PartialEq, Eq)]
enum Manner {
    // It rests on an incarnation that is superseded or annihilated.
    Hopeless,
    // It has all its checkpoints.
    Exhausted,
    // It is not stable.
    Unstable,
}

// Every transactor: what keeps a history from being ready in the group of all is that it is superseded or annihilated.
const ALL: u16 = 65535;

// Whether transactor c has such a history of transactor u in its state or creation map.
fn superseded(image: &Formed<'_>, c: usize, u: usize) -> bool
    requires { (c < base.transactors) × (u < base.transactors) }
    ensures { result ≡ withdrawn_by (state_in image.now) c u }
{
    entry(image, ALL, c, u).is_some()
}

// The first transactor of which c has such a history.
fn lost_ground(image: &Formed<'_>, c: usize) -> Option<usize>
    requires { c < base.transactors }
    ensures { Found (lost_ground base (state_in image.now) c) base.transactors result }
{
    (0..TRANSACTORS).find(|u| superseded(image, c, *u))
}

// Whether transactor c is in the way in this manner.
fn impedes(image: &Formed<'_>, manner: Manner, c: usize) -> bool
    requires { c < base.transactors }
    ensures { result ≡ impedes_at base (state_in image.now) (manner_number manner) c }
{
    match manner {
        Manner::Hopeless => lost_ground(image, c).is_some(),
        Manner::Exhausted => is_full(image, c),
        Manner::Unstable => !own(image, c).stable,
    }
}

// The lowest transactor that t rests on, as its row says, and that is in the way in this manner.
fn lowest(image: &Formed<'_>, reach: Reach, manner: Manner, t: usize) -> Option<usize>
    requires { (t < base.transactors) × Reached base (state_in image.now) base.transactors t reach.through reach.next }
    ensures { Found (lowest_for base (state_in image.now) (manner_number manner) t) base.transactors result }
{
    (0..TRANSACTORS).find(|c| is_named(reach.through[*c], t) && impedes(image, manner, *c))
}

// What is in the way of every group with transactor t, or none exactly if one could be checkpointed. Who rests on each is handed in.
pub fn impediment_in(image: &Formed<'_>, reach: Reach, t: usize) -> Option<Impediment>
    requires { (t < base.transactors) × Reached base (state_in image.now) base.transactors t reach.through reach.next }
    ensures { result ≡ impediment_of base (state_in image.now) t }
{
    if let Some(c) = lowest(image, reach, Manner::Hopeless, t) {
        let support = lost_ground(image, c).unwrap_or(TRANSACTORS);
        return Some(Impediment::Hopeless(c as u8, support as u8, reach.next[c]));
    }
    if let Some(c) = lowest(image, reach, Manner::Exhausted, t) {
        return Some(Impediment::Exhausted(c as u8, reach.next[c]));
    }
    if let Some(c) = lowest(image, reach, Manner::Unstable, t) {
        return Some(Impediment::Unstable(c as u8, reach.next[c]));
    }
    None
}

// The same; who rests on each is worked out.
pub fn impediment_of(image: &Formed<'_>, t: usize) -> Option<Impediment>
    requires { t < base.transactors }
    ensures { result ≡ impediment_of base (state_in image.now) t }
{
    let reach = reach_of(image, t);
    impediment_in(image, reach, t)
}
