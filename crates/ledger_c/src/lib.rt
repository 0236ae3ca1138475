// The ledger's calls for programs in other languages, as include/ledger.h declares them: a slice is a pointer and a length, a
// lent number a pointer. None has a precondition, and each promises what the call of ledger, queries, plans, actors, defects, thin, convert or window promises.
#![tactic(auto)]

ghost use Rattle.std.specs.Prelude.{◌≡◌};
ghost use Rattle.std.specs.Result.{result_unwrap_or};
ghost use Rattle.rules.specs.Layout.{base, limits_of};
ghost use Rattle.rules.specs.Calls.{query_refusal, show_refusal};
ghost use Rattle.rules.specs.Numbers.{refusal_in};
ghost use Rattle.rules.specs.Promises.{BeginPromise, RunPromise, OfferPromise, SmallestPromise, CountPromise, DependentsPromise, ObstaclePromise, ImpedimentPromise, PlanPromise};
ghost use Rattle.rules.specs.Heard.{heard_answer};
ghost use Rattle.actors.specs.Actor.{actor_refusal, actor_answer};
ghost use Rattle.defects.specs.Defect.{defect_refusal, defect_answer};
ghost use Rattle.thin.specs.Thin.{thin_refusal, thin_out, thin_count};
ghost use Rattle.convert.specs.Convert.{forward_answer, forward_image, back_answer, back_image};
ghost use Rattle.window.specs.Window.{window_refusal, worst_window};
ghost use Rattle.ledger_c.specs.Interface.{version, offered_by, group_of, number_for, reason_numbers, cause_numbers, acting_for, shown_part};

use actors::Actor;
use rules::refusals::Refusal;
use rules::{Dependents, Impediment, Obstacle};
use window::Worst;

// The number that stands for no message.
pub const NONE: u16 = 65535;

// The interface's major, minor and patch number, a byte each, as the file VERSION has them: LEDGER_VERSION of include/ledger.h.
pub const VERSION: u32 = 262144;

// The kinds of what is in the way of every group with a transactor.
const HOPELESS: u8 = 1;

const EXHAUSTED: u8 = 2;

const NOT_STABLE: u8 = 3;

// The kinds of whom a step acts for.
const HOUSE: usize = 1;

const ONE: usize = 2;

const GROUP: usize = 3;

// A part of the image.
#[repr(C)]
#[derive(Clone, Copy)]
pub struct Part {
    pub offset: usize,
    pub length: usize,
}

// Why a group can't be checkpointed, in numbers: the kind, 0 nothing, 1 unstable, 2 outside, 3 superseded or annihilated; the named transactor; and
// the one that it rests on.
#[repr(C)]
#[derive(Clone, Copy)]
pub struct Reason {
    pub kind: u8,
    pub transactor: u8,
    pub support: u8,
}

// Why no group with a transactor could be checkpointed, in numbers: the kind, 0 nothing, 1 hopeless, 2 exhausted, 3 unstable; the transactor that
// is in the way; the one of which it has a history that is superseded or annihilated; and the next from the asked one to the one in the way.
#[repr(C)]
#[derive(Clone, Copy)]
pub struct Cause {
    pub kind: u8,
    pub transactor: u8,
    pub support: u8,
    pub next: u8,
}

// For whom a step acts, in numbers: the kind, 0 nobody, 1 the house, 2 one transactor, 3 a group; and the transactors, their bits.
#[repr(C)]
#[derive(Clone, Copy)]
pub struct Acting {
    pub kind: usize,
    pub takes: usize,
}

// The number of a refusal, or 0.
fn number(call: Result<(), Refusal>) -> u8
    ensures { result ≡ refusal_in call }
{
    match call {
        Ok(()) => 0,
        Err(r) => r.number(),
    }
}

// What a call answers; the lent number takes its refusal, or 0; refused, none.
fn told<A: Copy>(call: Result<A, Refusal>, refusal: &mut u8, none: A) -> A
    ensures number { refusal.new ≡ refusal_in call }
    ensures answer { result ≡ result_unwrap_or call none }
{
    match call {
        Ok(answer) => {
            *refusal = 0;
            answer
        }
        Err(r) => {
            *refusal = r.number();
            none
        }
    }
}

// The version of this library.
#[unsafe(no_mangle)]
pub extern "C" fn ledger_version() -> u32
    ensures { result ≡ version 4 0 0 }
{
    VERSION
}

// Begins a fresh session that opens so many transactors, keeps so many messages waiting and checkpoints a transactor so often: 0, or
// 16, 33 with no byte changed.
#[unsafe(no_mangle)]
pub extern "C" fn ledger_begin(
    image: &mut [u8],
    transactors: usize,
    messages: usize,
    checkpoints: usize,
) -> u8
    ensures { BeginPromise base (limits_of transactors messages checkpoints) image.old result image.new }
{
    number(ledger::begin(image, transactors, messages, checkpoints))
}

// Runs the steps of the list from start up to end, and writes a reply for each: 0, or 16, 17, 18, 19 with no byte changed.
#[unsafe(no_mangle)]
pub extern "C" fn ledger_run(
    image: &mut [u8],
    list: &[u8],
    start: usize,
    end: usize,
    replies: &mut [u8],
) -> u8
    ensures { RunPromise base image.old list.now start end replies.old result image.new replies.new }
{
    number(ledger::run(image, list, start, end, replies))
}

// The lowest number of a waiting message addressed to the transactor, or NONE exactly if there is none. The lent number takes
// the refusal, 16, 19, 21 or 22, or 0; refused, NONE.
#[unsafe(no_mangle)]
pub extern "C" fn ledger_offer(image: &[u8], transactor: usize, refusal: &mut u8) -> u16
    ensures { OfferPromise base image.now transactor refusal.new (offered_by result) }
{
    told(ledger::offer(image, transactor), refusal, None).unwrap_or(NONE)
}

// The smallest group with the transactor that could be checkpointed now, or 0 exactly if there is none. The lent number takes
// the refusal, 16, 19, 21 or 22, or 0; refused, 0.
#[unsafe(no_mangle)]
pub extern "C" fn ledger_smallest_group(image: &[u8], transactor: usize, refusal: &mut u8) -> u16
    ensures { SmallestPromise base image.now transactor refusal.new (group_of result) }
{
    told(queries::smallest_group(image, transactor), refusal, None).unwrap_or(0)
}

// How many groups of that many transactors could be checkpointed now. The lent number takes the refusal, 16, 19 or 34, or 0; refused, 0.
#[unsafe(no_mangle)]
pub extern "C" fn ledger_ready_count(image: &[u8], size: usize, refusal: &mut u8) -> usize
    ensures { CountPromise base image.now size refusal.new result }
{
    told(queries::ready_count(image, size), refusal, 0)
}

// 1 exactly if every entry of the transactor's state and creation maps but its own is stable, else 0. The lent number takes the
// refusal, 16, 19, 21 or 22, or 0; refused, 0.
#[unsafe(no_mangle)]
pub extern "C" fn ledger_all_heard_stable(image: &[u8], transactor: usize, refusal: &mut u8) -> u8
    ensures { (refusal.new ≡ query_refusal base image.now transactor) × (result ≡ number_for (heard_answer base image.now transactor)) }
{
    u8::from(told(queries::all_heard_stable(image, transactor), refusal, false))
}

// Who rests on the transactor's present incarnation, directly and through others, who is busy with it, and how many waiting messages carry
// it. The lent number takes the refusal, 16, 19, 21 or 22, or 0; refused, all are 0.
#[unsafe(no_mangle)]
pub extern "C" fn ledger_dependents(image: &[u8], transactor: usize, refusal: &mut u8) -> Dependents
    ensures { DependentsPromise base image.now transactor refusal.new result }
{
    let none = Dependents {
        resting: 0,
        through: 0,
        unfinished: 0,
        carried: 0,
    };
    told(queries::dependents(image, transactor), refusal, none)
}

// Why the group can't be checkpointed now; all are 0 exactly if it can. The lent number takes the refusal, 16, 19, or what the signing would
// get, 29, 21, 22 or 30, or 0; refused, all are 0.
#[unsafe(no_mangle)]
pub extern "C" fn ledger_obstacle(image: &[u8], members: usize, refusal: &mut u8) -> Reason
    ensures { ObstaclePromise base image.now members refusal.new (reason_numbers result) }
{
    match told(queries::obstacle(image, members), refusal, None) {
        None => Reason {
            kind: 0,
            transactor: 0,
            support: 0,
        },
        Some(Obstacle::Unstable(t)) => Reason {
            kind: 1,
            transactor: t,
            support: 0,
        },
        Some(Obstacle::Outside(t, u)) => Reason {
            kind: 2,
            transactor: t,
            support: u,
        },
        Some(Obstacle::SupersededOrAnnihilated(t, u)) => Reason {
            kind: 3,
            transactor: t,
            support: u,
        },
    }
}

// Why no group with the transactor could be checkpointed now; all are 0 exactly if one could. The lent number takes the refusal, 16, 19, 21 or
// 22, or 0; refused, all are 0.
#[unsafe(no_mangle)]
pub extern "C" fn ledger_impediment(image: &[u8], transactor: usize, refusal: &mut u8) -> Cause
    ensures { ImpedimentPromise base image.now transactor refusal.new (cause_numbers result) }
{
    match told(queries::impediment(image, transactor), refusal, None) {
        None => Cause {
            kind: 0,
            transactor: 0,
            support: 0,
            next: 0,
        },
        Some(Impediment::Hopeless(c, u, x)) => Cause {
            kind: HOPELESS,
            transactor: c,
            support: u,
            next: x,
        },
        Some(Impediment::Exhausted(c, x)) => Cause {
            kind: EXHAUSTED,
            transactor: c,
            support: 0,
            next: x,
        },
        Some(Impediment::Unstable(c, x)) => Cause {
            kind: NOT_STABLE,
            transactor: c,
            support: 0,
            next: x,
        },
    }
}

// For whom the step acts on this image. The lent number takes the refusal, 16, 17 unless the step has eight bytes, 19, or 0; refused, both
// numbers are 0.
#[unsafe(no_mangle)]
pub extern "C" fn ledger_actor(image: &[u8], step: &[u8], refusal: &mut u8) -> Acting
    ensures { (refusal.new ≡ actor_refusal base image.now step.now) × (result ≡ acting_for (actor_answer base image.now step.now)) }
{
    match told(actors::for_whom(image, step), refusal, None) {
        None => Acting { kind: 0, takes: 0 },
        Some(Actor::House) => Acting {
            kind: HOUSE,
            takes: 0,
        },
        Some(Actor::One(t)) => Acting {
            kind: ONE,
            takes: 1usize << t,
        },
        Some(Actor::Group(members)) => Acting {
            kind: GROUP,
            takes: usize::from(members),
        },
    }
}

// Where the image fails the form first: the byte and the clause, lent numbers, both 0 where it does not. 16, 19 if it does, or 0.
#[unsafe(no_mangle)]
pub extern "C" fn ledger_fault(image: &[u8], at: &mut usize, clause: &mut u8) -> u8
    ensures { (result ≡ defect_refusal base image.now) × (at.new ≡ (defect_answer base image.now).at) × (clause.new ≡ (defect_answer base image.now).clause) }
{
    *at = 0;
    *clause = 0;
    match defects::first_defect(image) {
        Ok(None) => 0,
        Ok(Some(d)) => {
            *at = d.at;
            *clause = d.clause.number();
            Refusal::IllFormed.number()
        }
        Err(r) => r.number(),
    }
}

// Writes the steps after which the transactor is checkpointed with all that it rests on, each answered with 0, and zeros after them: how many
// steps; 0 exactly if something is in the way that lasts, or if there is no room for a letter that is needed. The lent number takes the refusal,
// 16, 19, 21, 22 or 18, or 0; refused, no byte of out is changed and the answer is 0.
#[unsafe(no_mangle)]
pub extern "C" fn ledger_plan(
    image: &[u8],
    transactor: usize,
    out: &mut [u8],
    refusal: &mut u8,
) -> usize
    ensures { PlanPromise base image.now transactor out.old refusal.new out.new result }
{
    told(plans::plan(image, transactor, out), refusal, 0)
}

// Writes the short list of the steps from start up to end, with zeros after it: how many steps are kept. The lent number takes the
// refusal, 16, 17, 18 or 19, or 0; refused, no byte of out is changed and the answer is 0.
#[unsafe(no_mangle)]
pub extern "C" fn ledger_thin(
    image: &[u8],
    list: &[u8],
    start: usize,
    end: usize,
    out: &mut [u8],
    refusal: &mut u8,
) -> usize
    ensures { (refusal.new ≡ thin_refusal base image.now list.now start end out.old)
        × (out.new ≡ thin_out base image.now list.now start end out.old)
        × (result ≡ thin_count base image.now list.now start end out.old) }
{
    told(thin::thin(image, list, start, end, out), refusal, 0)
}

// The part of the image that holds a waiting message's map. The lent number takes the refusal, 16, 19 or 24, or 0; refused, an
// empty part.
#[unsafe(no_mangle)]
pub extern "C" fn ledger_show(image: &[u8], number: usize, refusal: &mut u8) -> Part
    ensures { (refusal.new ≡ show_refusal base image.now number) × (result ≡ shown_part base image.now number) }
{
    match ledger::shown_at(image, number) {
        Ok(offset) => {
            *refusal = 0;
            Part {
                offset,
                length: maps::SIZE,
            }
        }
        Err(r) => {
            *refusal = r.number();
            Part {
                offset: 0,
                length: 0,
            }
        }
    }
}

// Writes an image of the old form, 22,132 bytes, in the ledger's, with the greatest limits: 0, or 16, 19 with no byte changed.
#[unsafe(no_mangle)]
pub extern "C" fn ledger_forward(source: &[u8], target: &mut [u8]) -> u8
    ensures { (result ≡ forward_answer source.now target.old)
        × (target.new ≡ forward_image source.now target.old) }
{
    number(convert::forward(source, target))
}

// Writes an image in the old form, 22,132 bytes: 0, or 16, 19, 32 with no byte changed.
#[unsafe(no_mangle)]
pub extern "C" fn ledger_back(source: &[u8], target: &mut [u8]) -> u8
    ensures { (result ≡ back_answer source.now target.old)
        × (target.new ≡ back_image source.now target.old) }
{
    number(convert::back(source, target))
}

// The greatest count of outcomes 3 and 4 over every window of width successive replies, and the place of the first window that has
// it; a list shorter than the width is one window. The lent number takes the refusal, 17 or 35, or 0; refused, both numbers are 0.
#[unsafe(no_mangle)]
pub extern "C" fn ledger_worst_window(replies: &[u8], width: usize, refusal: &mut u8) -> Worst
    ensures { (refusal.new ≡ window_refusal replies.now width) × (result ≡ worst_window replies.now width) }
{
    let none = Worst { count: 0, place: 0 };
    told(window::worst_window(replies, width), refusal, none)
}
