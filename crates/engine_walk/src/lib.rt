// Document 02, W11: the walk back over the steps, for a receipt and for a signing.
#![tactic(auto)]

mod events;
mod kept;
mod sides;

ghost use Rattle.std.specs.Prelude.{◌≡◌, ◌*◌, ◌+◌, ◌<◌, ◌≤◌, not, length};
ghost use Rattle.octets.specs.Bytes.{◌and◌};
ghost use Rattle.rules.specs.Step.{step_bytes, step_at};
ghost use Rattle.engine_chains.specs.Internal.Walk.{told_in, receipt_back, sign_walk, Walkable};
ghost use Rattle.engine_chains.specs.Internal.Words.{following, follower_over, follower_step, follow_back, walker_from, walker_in};

use engine_chains::words::{Event, Walker};
use kept::WORDS;
use lists::{NUMBERS, STEP, packed};

// Every transactor.
const ALL: u16 = 65535;

// What a receipt finds: a history of the message is superseded (stale); one that the receiver holds is.
// Two flags and no enum: the engine's table looks at each by itself, and a receipt can find both.
#[derive(Clone, Copy)]
pub struct Compared {
    pub dropped: bool,
    pub rolls: bool,
}

// Back over what a step did, with the transactors rolled back there and those checkpointed.
#[tactic(auto, unfolding(engine_chains::specs::Internal::Words::follower_over))]
fn over(e: Event, rolled: u16, checkpointed: u16, x: Walker, messages: &mut [u16]) -> Walker
    ensures { following result messages.new ≡ follower_over e rolled checkpointed (following x messages.old) }
{
    let l = x.left;
    let r = x.right;
    let q = sides::both_over(e, l.places, r.places, messages);
    sides::joined(x, q, rolled, checkpointed)
}

// Back over step k of the list.
fn over_step(list: &[u8], replies: &[u8], k: usize, x: Walker, messages: &mut [u16]) -> Walker
    requires { (step_bytes * (k + 1) ≤ length list.now) × (step_bytes * (k + 1) ≤ length replies.now) }
    ensures { following result messages.new ≡ follower_step (step_at list.now k) (told_in replies.now k) (following x messages.old) }
{
    let at = STEP * k;
    let p = packed::decode(list, at);
    let w = packed::told(replies, at);
    if events::unchanged(p, w) {
        return x;
    }
    let rolled = events::rolled_back(w);
    let checkpointed = events::checkpointed(p, w);
    let e = events::event(p, w);
    over(e, rolled, checkpointed, x, messages)
}

// Back over the first i steps, the last one first: a call goes back over one step and then calls itself, once, for those before it.
// A number and addresses cross the call, those of the two slices and of the arrays that hold walker and messages: so the compiler makes it
// a jump, where a slice or a struct would be copied onto the stack at each call.
fn walk(
    list: &&[u8],
    replies: &&[u8],
    i: usize,
    walker: &mut [u16; WORDS],
    messages: &mut [u16; NUMBERS],
)
    requires { (step_bytes * i ≤ length list.now.now) × (step_bytes * i ≤ length replies.now.now) }
    ensures { following (walker_in walker.new) messages.new
        ≡ follow_back list.now.now (told_in replies.now.now) i (following (walker_in walker.old) messages.old) }
{
    if i == 0 {
        return;
    }
    let k = i - 1;
    let x = over_step(*list, *replies, k, kept::walker(*walker), messages);
    *walker = kept::words(x);
    walk(list, replies, k, walker, messages);
}

// The walk from x. The compiler puts walk in here, its one caller but itself, and the walker's words are in registers.
fn walked(list: &[u8], replies: &[u8], i: usize, x: Walker, messages: &mut [u16; NUMBERS]) -> Walker
    requires { (step_bytes * i ≤ length list.now) × (step_bytes * i ≤ length replies.now) }
    ensures { following result messages.new ≡ follow_back list.now (told_in replies.now) i (following x messages.old) }
{
    let mut words = kept::words(x);
    walk(&list, &replies, i, &mut words, messages);
    kept::walker(words)
}

// Nothing met yet: state and creation of the transactors ground are followed on the right.
#[tactic(auto, unfolding(engine_chains::specs::Internal::Words::walker_from))]
fn start(support: u16, found: u16, allowed: u16) -> Walker
    ensures { result ≡ walker_from support found allowed }
{
    let left = sides::trail(0, found);
    let right = sides::trail(support, 0);
    Walker {
        left,
        right,
        ended: 0,
        allowed,
        left_superseded: 0,
        right_superseded: 0,
        unallowed: 0,
    }
}

// The receipt of message n by transactor t, after i steps: the message is followed on the left, state and creation of t on the right.
// List, replies and i go from call to call as three and not as a struct: the contracts would still name each of them.
pub fn receipt(list: &[u8], replies: &[u8], i: usize, n: usize, t: usize) -> Compared
    requires { Walkable list.now replies.now i × (n < 1024) × (t < 16) }
    ensures { (result.dropped ≡ (receipt_back list.now replies.now i n t).left_is_superseded)
        × (result.rolls ≡ (receipt_back list.now replies.now i n t).right_is_superseded) }
{
    let mut messages = [0u16; NUMBERS];
    messages[n] = sides::LEFT;
    let x = walked(list, replies, i, start(1 << t, 0, ALL), &mut messages);
    Compared {
        dropped: x.left_superseded != 0,
        rolls: x.right_superseded != 0,
    }
}

// Whether state and creation of the group's members, after i steps, rest on no superseded incarnation, and on a present one of members alone.
pub fn grounded(list: &[u8], replies: &[u8], i: usize, group: u16) -> bool
    requires { Walkable list.now replies.now i }
    ensures { result ≡ not (sign_walk list.now replies.now i group).right_is_superseded and not (sign_walk list.now replies.now i group).unallowed }
{
    let mut messages = [0u16; NUMBERS];
    let x = walked(list, replies, i, start(group, ALL, group), &mut messages);
    x.right_superseded == 0 && x.unallowed == 0
}
