// Both sides of a walk, back over an event: the places followed, and the transactors met.
ghost use Rattle.std.specs.Prelude.{◌≡◌, get_or, set};
ghost use Rattle.std.specs.Int.Bits.{bit_and};
ghost use Rattle.engine_chains.specs.Internal.Words.{meet, word_if, side_reads, side_writes, side_finishes, side_without, side_carries, side_opens, opening_meets, on_left, on_right, sides_if, passed, passed_over, messages_over, trail_over, trail_from, walker_with};

use engine_chains::words::{Event, Passed, Side, Trail, Walker};

// The sides on which a message is followed, added up.
pub const LEFT: u16 = 1;

const RIGHT: u16 = 2;

// The sides on which message n is followed.
fn followed(l: &[u16], n: u16) -> u16
    ensures { result ≡ get_or l.now n 0 }
{
    l.get(usize::from(n)).copied().unwrap_or(0)
}

// Message n is followed on the sides v from here on. By the index: of a slice's `get_mut` a proof learns no element.
fn follow(l: &mut [u16], n: u16, v: u16)
    ensures { l.new ≡ set l.old n v }
{
    let at = usize::from(n);
    if at < l.len() {
        l[at] = v;
    }
}

// w, or 0.
pub fn word_if(c: bool, w: u16) -> u16
    ensures { result ≡ word_if c w }
{
    if c { w } else { 0 }
}

fn read(s: Side, t: u16) -> Side
    ensures { result ≡ side_reads s t }
{
    Side {
        state: s.state | (s.behaviour & t),
        ..s
    }
}

fn write(s: Side, t: u16) -> Side
    ensures { result ≡ side_writes s t }
{
    Side {
        behaviour: s.behaviour | (s.state & t),
        ..s
    }
}

fn finish(s: Side, t: u16) -> Side
    ensures { result ≡ side_finishes s t }
{
    Side {
        behaviour: s.behaviour ^ (s.behaviour & t),
        ..s
    }
}

fn without(s: Side, v: u16) -> Side
    ensures { result ≡ side_without s v }
{
    Side {
        state: s.state ^ (s.state & v),
        creation: s.creation ^ (s.creation & v),
        behaviour: s.behaviour ^ (s.behaviour & v),
    }
}

// Creation and behaviour of the transactors w are followed besides.
fn carry(s: Side, w: u16) -> Side
    ensures { result ≡ side_carries s w }
{
    Side {
        creation: s.creation | w,
        behaviour: s.behaviour | w,
        ..s
    }
}

// t opened c.
#[tactic(auto, unfolding(engine_chains::specs::Internal::Words::side_opens))]
fn opening(s: Side, t: u16, c: u16) -> Side
    ensures { result ≡ side_opens s t c }
{
    carry(without(s, c), word_if(s.creation & c != 0, t))
}

#[tactic(auto, unfolding(engine_chains::specs::Internal::Words::opening_meets))]
fn opening_meets(s: Side, t: u16, c: u16) -> u16
    ensures { result ≡ opening_meets s t c }
{
    let kept = s.behaviour ^ (s.behaviour & c);
    let carried = word_if(s.creation & c != 0, t);
    let heard = word_if(kept & t != 0, c);
    carried | (heard | (s.state & c))
}

// Nobody is met.
fn unmet(left: Side, right: Side) -> Passed
    ensures { result ≡ passed left right 0 0 }
{
    Passed {
        left,
        right,
        met_left: 0,
        met_right: 0,
    }
}

// t sent a message that is followed on the sides v.
fn sent(a: Side, b: Side, v: u16, t: u16) -> Passed
    ensures { result ≡ passed (side_carries a (word_if (on_left v) t)) (side_carries b (word_if (on_right v) t)) (word_if (on_left v) t) (word_if (on_right v) t) }
{
    let met_left = word_if(v & LEFT != 0, t);
    let met_right = word_if(v & RIGHT != 0, t);
    Passed {
        left: carry(a, met_left),
        right: carry(b, met_right),
        met_left,
        met_right,
    }
}

#[tactic(auto, unfolding(engine_chains::specs::Internal::Words::side_opens, engine_chains::specs::Internal::Words::opening_meets))]
fn opened(a: Side, b: Side, t: u16, c: u16) -> Passed
    ensures { result ≡ passed (side_opens a t c) (side_opens b t c) (opening_meets a t c) (opening_meets b t c) }
{
    Passed {
        left: opening(a, t, c),
        right: opening(b, t, c),
        met_left: opening_meets(a, t, c),
        met_right: opening_meets(b, t, c),
    }
}

fn finished(a: Side, b: Side, t: u16) -> Passed
    ensures { result ≡ passed (side_finishes a t) (side_finishes b t) 0 0 }
{
    unmet(finish(a, t), finish(b, t))
}

fn renewed(a: Side, b: Side, v: u16) -> Passed
    ensures { result ≡ passed (side_without a v) (side_without b v) (bit_and a.state v) (bit_and b.state v) }
{
    Passed {
        left: without(a, v),
        right: without(b, v),
        met_left: a.state & v,
        met_right: b.state & v,
    }
}

fn annihilated(a: Side, b: Side, t: u16) -> Passed
    ensures { result ≡ passed (side_without a t) (side_without b t) 0 0 }
{
    unmet(without(a, t), without(b, t))
}

// The sides on which the behaviour of t is followed.
fn sides_of(a: Side, b: Side, t: u16) -> u16
    ensures { result ≡ sides_if (meet a.behaviour t) (meet b.behaviour t) }
{
    word_if(a.behaviour & t != 0, LEFT) | word_if(b.behaviour & t != 0, RIGHT)
}

// a, b: the left side and the right one; l: the messages followed. One look at the event for all of them.
#[tactic(auto, unfolding(engine_chains::specs::Internal::Words::passed_over, engine_chains::specs::Internal::Words::messages_over, engine_chains::specs::Internal::Words::side_over, engine_chains::specs::Internal::Words::met_over))]
pub fn both_over(e: Event, a: Side, b: Side, l: &mut [u16]) -> Passed
    ensures { (result ≡ passed_over e a b l.old) × (l.new ≡ messages_over e a b l.old) }
{
    match e {
        Event::Nothing => unmet(a, b),
        Event::Cleared(n) => {
            follow(l, n, 0);
            unmet(a, b)
        }
        Event::Sent(n, t) => {
            let v = followed(l, n);
            follow(l, n, 0);
            sent(a, b, v, t)
        }
        Event::Taken(n, t) => {
            follow(l, n, sides_of(a, b, t));
            finished(a, b, t)
        }
        Event::Opens(t, c) => opened(a, b, t, c),
        Event::Reads(t) => unmet(read(a, t), read(b, t)),
        Event::Writes(t) => unmet(write(a, t), write(b, t)),
        Event::Finishes(t) => finished(a, b, t),
        Event::Renewed(v) => renewed(a, b, v),
        Event::Annihilated(t) => annihilated(a, b, t),
        Event::ClearedRenewed(n, v) => {
            follow(l, n, 0);
            renewed(a, b, v)
        }
        Event::ClearedAnnihilated(n, t) => {
            follow(l, n, 0);
            annihilated(a, b, t)
        }
    }
}

// One side after a step; changed: the transactors that were rolled back or checkpointed there.
fn trail_over(x: Trail, places: Side, met: u16, changed: u16) -> Trail
    ensures { result ≡ trail_over x places met changed }
{
    let found = x.found | met;
    Trail {
        places,
        found,
        past: x.past | (found & changed),
    }
}

// At the start of a walk: state and creation of the transactors ground, and those found.
pub fn trail(support: u16, found: u16) -> Trail
    ensures { result ≡ trail_from support found }
{
    Trail {
        places: Side {
            state: support,
            creation: support,
            behaviour: 0,
        },
        found,
        past: 0,
    }
}

// x after a step that was passed so, with the transactors rolled back there and those checkpointed.
// Of two incarnations of a transactor the earlier is superseded (stale) exactly if it ended in a rollback. Going back, the earlier one is
// the one met now; the later one was met before, on the other side (past), and how the earlier one ended is known (ended).
#[tactic(auto, unfolding(engine_chains::specs::Internal::Words::walker_with))]
pub fn joined(x: Walker, q: Passed, rolled: u16, checkpointed: u16) -> Walker
    ensures { result ≡ walker_with x q rolled checkpointed }
{
    let l = x.left;
    let r = x.right;
    let present = q.met_right ^ (q.met_right & l.past);
    let ended = rolled | (x.ended ^ (x.ended & checkpointed));
    let left_superseded = x.left_superseded | (q.met_left & (r.past & x.ended));
    let right_superseded = x.right_superseded | (q.met_right & (l.past & x.ended));
    let unallowed = x.unallowed | (present ^ (present & x.allowed));
    Walker {
        left: trail_over(l, q.left, q.met_left, rolled | checkpointed),
        right: trail_over(r, q.right, q.met_right, rolled | checkpointed),
        ended,
        allowed: x.allowed,
        left_superseded,
        right_superseded,
        unallowed,
    }
}
