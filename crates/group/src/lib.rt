// A checkpoint group (document 01: a volume): what refuses it, whether it can be signed, and its signing.
#![tactic(auto)]

ghost use Rattle.std.specs.Prelude.{◌≡◌, ◌+◌, ◌≤◌, ◌<◌};
ghost use Rattle.rules.specs.Layout.{base, history_bytes, image_bytes};
ghost use Rattle.rules.specs.State.{live, own_history, transactor_at};
ghost use Rattle.rules.specs.Rules.{group_ready, checkpoint_group};
ghost use Rattle.rules.specs.Pack.{pack, unpack};
ghost use Rattle.image.specs.Formed.{state_in};
ghost use Rattle.rules.specs.Numbers.{refusal_in};
ghost use Rattle.rules.specs.Internal.Good.{Good};
ghost use Rattle.rules.specs.Internal.Guards.{is_full, named_in, group_in, Room};
ghost use Rattle.rules.specs.Internal.Closure.{stored_ready, pair_ready, Presents, Kept, in_group_at, checkpointed_at};

use image::formed::Formed;
use image::layout::{CREATION, FIRST_TRANSACTOR, STATE, TRANSACTOR, TRANSACTORS, own_at};
use image::{head, limits};
use lists::groups::is_named;
use lists::refusals;
use marks::History;
use packed_histories::in_place;
use rules::refusals::Refusal;
use rules::statuses::Status;

// The own history of transactor t.
pub fn own(image: &Formed<'_>, t: usize) -> History
    requires { t < base.transactors }
    ensures { result ≡ own_history t (transactor_at (state_in image.now) t) }
{
    let at = FIRST_TRANSACTOR + TRANSACTOR * t;
    let end = at + TRANSACTOR;
    transactor::own(&image.bytes[at..end], t)
}

// How many checkpoints transactor t has.
fn count(image: &Formed<'_>, t: usize) -> u8
    requires { t < base.transactors }
    ensures { result ≡ (own_history t (transactor_at (state_in image.now) t)).count }
{
    let n = in_place::count(image.bytes, own_at(t));
    n as u8
}

// Whether transactor t has no room for one more checkpoint.
pub fn is_full(image: &Formed<'_>, t: usize) -> bool
    requires { t < base.transactors }
    ensures { result ≡ is_full (state_in image.now) t }
{
    limits::checkpoints(image.bytes) <= count(image, t)
}

// Whether every named transactor can be checkpointed: refused as 22 if one is gone, or else as 30 if one has no room. Of 30 a flag is kept
// till the end, and no refusal, which would be carried through every turn.
fn check_members(image: &Formed<'_>, group: u16) -> Result<(), Refusal>
    ensures { refusal_in result ≡ named_in (state_in image.now) group }
{
    let most = limits::checkpoints(image.bytes);
    let mut full = false;
    for t in 0..TRANSACTORS {
        if is_named(group, t) {
            let status = head::status(image.bytes, t).number();
            if let Err(r) = refusals::member(most, status, count(image, t)) {
                if r == Refusal::Gone {
                    return Err(r);
                }
                full = true;
            }
        }
    }
    if full {
        return Err(Refusal::AllCheckpointed);
    }
    Ok(())
}

// Whether a group can be signed, ready or not: refused as 29, 21, 22 or 30 if not.
pub fn check(image: &Formed<'_>, group: u16) -> Result<(), Refusal>
    ensures { refusal_in result ≡ group_in (state_in image.now) group }
{
    refusals::group(head::opened(image.bytes), group)?;
    check_members(image, group)
}

// Whether transactor u is idle or busy.
pub fn is_live(image: &Formed<'_>, u: usize) -> bool
    requires { u < base.transactors }
    ensures { result ≡ live (transactor_at (state_in image.now) u) }
{
    matches!(head::status(image.bytes, u), Status::Idle | Status::Busy)
}

// ---- the test of a group, with what is kept of its members

// What is kept of a group's transactors: their own histories, and which of them are stable.
#[derive(Clone, Copy)]
pub struct Present {
    pub own: [History; 16],
    pub stable: u16,
}

// The own history of each named transactor is worked out once; the other places hold the initial history and are not looked at.
pub fn presents(image: &Formed<'_>, group: u16) -> Present
    ensures { Presents base (state_in image.now) group result.own result.stable }
{
    let mut present = [History::INITIAL; 16];
    let mut stable: u16 = 0;
    for t in 0..TRANSACTORS {
        if is_named(group, t) {
            let h = own(image, t);
            present[t] = h;
            if h.stable {
                stable += 1u16 << t;
            }
        }
    }
    Present {
        own: present,
        stable,
    }
}

// Whether there is no history at at, or one of the present incarnation of transactor u, a named one, of which h is kept.
pub fn in_group(image: &Formed<'_>, group: u16, at: usize, u: usize, h: History) -> bool
    requires { (at + history_bytes base ≤ image_bytes base) × (u < base.transactors) × Kept (state_in image.now) group u h }
    ensures { result ≡ in_group_at base image.now.bytes.now group at u }
{
    if !packed_histories::present(image.bytes, at) {
        return true;
    }
    if !is_named(group, u) {
        return false;
    }
    in_place::same_as(image.bytes, at, h)
}

// Whether the history at at, of transactor u, is checkpointed.
pub fn checkpointed(image: &Formed<'_>, group: u16, at: usize, u: usize, h: History) -> bool
    requires { (at + history_bytes base ≤ image_bytes base) × (u < base.transactors) × Kept (state_in image.now) group u h }
    ensures { result ≡ checkpointed_at base image.now.bytes.now at u }
{
    if is_named(group, u) {
        return in_place::checkpointed_by(image.bytes, at, h);
    }
    if !is_live(image, u) {
        return false;
    }
    in_place::checkpointed_in(image.bytes, at, own_at(u))
}

// Whether the entry at at, of transactor u, is ready: in the group, or checkpointed.
fn entry_ready(image: &Formed<'_>, group: u16, at: usize, u: usize, h: History) -> bool
    requires { (at + history_bytes base ≤ image_bytes base) × (u < base.transactors) × Kept (state_in image.now) group u h }
    ensures { result ≡ stored_ready base image.now.bytes.now group at u }
{
    in_group(image, group, at, u, h) || checkpointed(image, group, at, u, h)
}

// The entries u of the state and creation maps of transactor t, with what is kept of u.
fn kept_ready(image: &Formed<'_>, group: u16, t: usize, u: usize, h: History) -> bool
    requires { (t < base.transactors) × (u < base.transactors) × Kept (state_in image.now) group u h }
    ensures { result ≡ pair_ready base image.now.bytes.now group t u }
{
    let at = FIRST_TRANSACTOR + TRANSACTOR * t;
    let state = at + STATE + marks::SIZE * u;
    let creation = at + CREATION + marks::SIZE * u;
    entry_ready(image, group, state, u, h) && entry_ready(image, group, creation, u, h)
}

// Whether every named transactor is stable, and every entry of its state and creation maps is ready: left at the first that
// is not. What the present incarnations are is asked before the entries are walked. In a well-formed image a stable transactor is live.
pub fn ready(image: &Formed<'_>, group: u16) -> bool
    ensures { result ≡ group_ready base (state_in image.now) group }
{
    let kept = presents(image, group);
    if kept.stable != group {
        return false;
    }
    let mut ok = true;
    'named: for t in 0..TRANSACTORS {
        if !is_named(group, t) {
            continue;
        }
        for u in 0..TRANSACTORS {
            if !kept_ready(image, group, t, u, kept.own[u]) {
                ok = false;
                break 'named;
            }
        }
    }
    ok
}

// Every named transactor is checkpointed.
pub fn checkpoint(image: &mut [u8], group: u16)
    requires { Good image.old × Room (unpack base image.old) group }
    ensures { image.new ≡ pack base (checkpoint_group base (unpack base image.old) group) }
{
    for t in 0..TRANSACTORS {
        if is_named(group, t) {
            let at = FIRST_TRANSACTOR + TRANSACTOR * t;
            let end = at + TRANSACTOR;
            transactor::checkpoint(&mut image[at..end], t);
        }
    }
}
