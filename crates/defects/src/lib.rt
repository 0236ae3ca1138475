// Where an image fails the form first, and by which clause: the tests of `form`, which answer with the place of the first that fails.
#![tactic(auto)]

ghost use Rattle.std.specs.Prelude.{◌≡◌, ℕ, ◌/◌, ◌<◌, length, get_or};
ghost use Rattle.rules.specs.Layout.{base, transactor_address, image_bytes};
ghost use Rattle.rules.specs.Pack.{waiting_in, unpack};
ghost use Rattle.image.specs.Internal.Addresses.{own_at};
ghost use Rattle.rules.specs.Numbers.{status_number};
ghost use Rattle.defects.specs.Defect.{clause_number, told_refusal, told_defect, front_defect, behaviour_defect, saved_right_at, live_defect, transactor_defect, least_number, waiting_defect, message_defect, first_of, Finds, defect_of, DefectPromise};

use form::Front;
use image::layout::{
    BEHAVIOUR, BLANK, CREATION, DEPENDENCES, FIRST_MESSAGE, FIRST_TRANSACTOR, IMAGE, LIMITS_BLANK,
    MESSAGE, MESSAGES, MOST_MESSAGES, MOST_TRANSACTORS, NUMBER, OPENED, SAVED, STATE, TRANSACTOR,
    TRANSACTORS, own_at,
};
use image::{head, limits, messages};
use rules::refusals::Refusal;
use rules::statuses::Status;

// The clauses by their numbers in docs/RULES.md, section 8.
#[derive(Clone, Copy, Debug, PartialEq, Eq)]
pub enum Clause {
    FrontZeros = 1,
    WrongLimits = 2,
    TransactorZeros = 3,
    PlaceZeros = 4,
    WrongMap = 5,
    OverLimit = 6,
    WrongStatus = 7,
    NoOwnHistory = 8,
    SavedValue = 9,
    IdleBehaviour = 10,
    OverStatus = 11,
    Gap = 12,
    OutOfOrder = 13,
    OverNext = 14,
    ToUnopened = 15,
}

impl Clause {
    // Its number, from 1 on.
    pub fn number(self) -> u8
        ensures { result ≡ clause_number self }
    {
        self as u8
    }
}

// A clause that fails, and the byte where it does.
#[derive(Clone, Copy, Debug, PartialEq, Eq)]
pub struct Defect {
    pub at: usize,
    pub clause: Clause,
}

// The clause fails at byte at.
fn fails(at: usize, clause: Clause) -> Option<Defect>
    ensures { result ≡ Some (record { at = at; clause = clause }) }
{
    Some(Defect { at, clause })
}

// The head and the limits, of which n messages that wait are within theirs.
#[tactic(auto, unfolding(crate::specs::Defect::front_defect, rules::specs::Form::limits_zero))]
fn head_defect(s: &[u8], n: usize) -> Option<Defect>
    requires { (length s.now ≡ image_bytes base) × (n ≡ waiting_in base s.now) }
    ensures { result ≡ front_defect base s.now }
{
    if s[BLANK] != 0 {
        return fails(BLANK, Clause::FrontZeros);
    }
    if s[LIMITS_BLANK] != 0 {
        return fails(LIMITS_BLANK, Clause::FrontZeros);
    }
    let most = limits::transactors(s);
    let most_messages = limits::messages(s) as usize;
    if !lists::limits::in_range(
        most as usize,
        most_messages,
        limits::checkpoints(s) as usize,
    ) {
        return fails(MOST_TRANSACTORS, Clause::WrongLimits);
    }
    if most < head::opened(s) {
        return fails(OPENED, Clause::OverLimit);
    }
    if most_messages < n {
        return fails(MOST_MESSAGES, Clause::OverLimit);
    }
    None
}

// The behaviour map of transactor t, idle or at work.
#[tactic(auto, unfolding(crate::specs::Defect::behaviour_defect, rules::specs::Form::map_formed))]
fn behaviour(front: &Front<'_>, t: usize, status: Status) -> Option<Defect>
    requires below { t < base.transactors }
    requires stored { status_number status ≡ get_or front.now.bytes.now (transactor_address base t) 0 / 64 }
    ensures { result ≡ behaviour_defect base front.now.bytes.now t }
{
    let at = FIRST_TRANSACTOR + TRANSACTOR * t + BEHAVIOUR;
    match status {
        Status::Idle if octets::all_zero(front.bytes, at, maps::SIZE) => None,
        Status::Idle => fails(at, Clause::IdleBehaviour),
        _ if packed_maps::formed(front.bytes, at, front.opened, front.limit) => None,
        _ => fails(at, Clause::WrongMap),
    }
}

// Whether transactor t was checkpointed, or has no saved value.
#[tactic(auto, unfolding(crate::specs::Defect::saved_right_at))]
fn saved_right(s: &[u8], t: usize, own: usize) -> bool
    requires { (length s.now ≡ image_bytes base) × (t < base.transactors) × (own ≡ own_at base t) }
    ensures { result ≡ saved_right_at base s.now t }
{
    packed_histories::load(s, own).count != 0
        || octets::load32(s, FIRST_TRANSACTOR + TRANSACTOR * t + SAVED) == 0
}

// A transactor, idle or at work.
#[tactic(auto, unfolding(crate::specs::Defect::live_defect, rules::specs::Form::map_formed))]
fn live(front: &Front<'_>, t: usize, status: Status) -> Option<Defect>
    requires below { t < base.transactors }
    requires stored { status_number status ≡ get_or front.now.bytes.now (transactor_address base t) 0 / 64 }
    ensures { result ≡ live_defect base front.now.bytes.now t }
{
    let at = FIRST_TRANSACTOR + TRANSACTOR * t;
    if !packed_maps::formed(front.bytes, at + STATE, front.opened, front.limit) {
        return fails(at + STATE, Clause::WrongMap);
    }
    if !packed_maps::formed(front.bytes, at + CREATION, front.opened, front.limit) {
        return fails(at + CREATION, Clause::WrongMap);
    }
    let own = own_at(t);
    if !packed_histories::present(front.bytes, own) {
        return fails(own, Clause::NoOwnHistory);
    }
    if !saved_right(front.bytes, t, own) {
        return fails(at + SAVED, Clause::SavedValue);
    }
    behaviour(front, t, status)
}

// One transactor, where opened are opened and a list may have limit entries.
#[tactic(auto, unfolding(crate::specs::Defect::transactor_defect))]
fn transactor(front: &Front<'_>, t: usize) -> Option<Defect>
    requires { t < base.transactors }
    ensures { result ≡ transactor_defect base front.now.bytes.now t }
{
    let at = FIRST_TRANSACTOR + TRANSACTOR * t;
    if front.opened <= t {
        if !octets::all_zero(front.bytes, at, TRANSACTOR) {
            return fails(at, Clause::TransactorZeros);
        }
        return None;
    }
    let first = front.bytes[at];
    if first % 64 != 0 {
        return fails(at, Clause::TransactorZeros);
    }
    let status = Status::of(first);
    match status {
        Status::Unused => fails(at, Clause::WrongStatus),
        Status::Annihilated if octets::all_zero(front.bytes, at + 1, TRANSACTOR - 1) => None,
        Status::Annihilated => fails(at + 1, Clause::OverStatus),
        Status::Idle | Status::Busy => live(front, t, status),
    }
}

// One more than the number in the place before k; 0 for the first.
#[tactic(auto, unfolding(crate::specs::Defect::least_number))]
fn least(s: &[u8], k: usize) -> usize
    requires { (length s.now ≡ image_bytes base) × (k < base.messages) }
    ensures { result ≡ least_number base s.now k }
{
    if k == 0 {
        return 0;
    }
    let before = k - 1;
    octets::load16(s, FIRST_MESSAGE + MESSAGE * before + NUMBER) as usize + 1
}

// Place k, in which a message waits.
#[tactic(auto, unfolding(crate::specs::Defect::waiting_defect, rules::specs::Form::map_formed))]
fn waits(front: &Front<'_>, k: usize) -> Option<Defect>
    requires { k < base.messages }
    ensures { result ≡ waiting_defect base front.now.bytes.now k }
{
    let at = FIRST_MESSAGE + MESSAGE * k;
    let first = front.bytes[at];
    if first / 16 != 8 {
        return fails(at, Clause::PlaceZeros);
    }
    let to = (first % 16) as usize;
    if front.opened <= to {
        return fails(at, Clause::ToUnopened);
    }
    let number = octets::load16(front.bytes, at + NUMBER);
    if front.next <= number {
        return fails(at + NUMBER, Clause::OverNext);
    }
    if (number as usize) < least(front.bytes, k) {
        return fails(at + NUMBER, Clause::OutOfOrder);
    }
    if !packed_maps::formed(front.bytes, at + DEPENDENCES, front.opened, front.limit) {
        return fails(at + DEPENDENCES, Clause::WrongMap);
    }
    None
}

// Place k, of which the first n wait.
#[tactic(auto, unfolding(crate::specs::Defect::message_defect))]
fn message(front: &Front<'_>, k: usize) -> Option<Defect>
    requires { k < base.messages }
    ensures { result ≡ message_defect base front.now.bytes.now k }
{
    let at = FIRST_MESSAGE + MESSAGE * k;
    if k < front.waiting {
        return waits(front, k);
    }
    if octets::all_zero(front.bytes, at, MESSAGE) {
        return None;
    }
    if front.bytes[at] < 128 {
        return fails(at, Clause::PlaceZeros);
    }
    fails(at, Clause::Gap)
}

// The first defect that part answers with at 0, 1, .., n numbers.
fn first_of<F: Fn(usize) -> Option<Defect>>(n: usize, part: F) -> Option<Defect>
    requires { (k : ℕ) → k < n → F.pre part k }
    ensures { Finds (F.post part) n result }
{
    // tried: the check does not find what (0..n).find_map(part) answers
    for k in 0..n {
        if let Some(d) = part(k) {
            return Some(d);
        }
    }
    None
}

fn transactors(front: &Front<'_>) -> Option<Defect>
    ensures { result ≡ first_of (transactor_defect base front.now.bytes.now) 0 base.transactors }
{
    first_of(TRANSACTORS, |t| transactor(front, t))
}

fn all_messages(front: &Front<'_>) -> Option<Defect>
    ensures { result ≡ first_of (message_defect base front.now.bytes.now) 0 base.messages }
{
    first_of(MESSAGES, |k| message(front, k))
}

fn defect_of(s: &[u8]) -> Option<Defect>
    requires { length s.now ≡ image_bytes base }
    ensures { result ≡ defect_of base s.now }
{
    let waiting = messages::waiting(s);
    if let Some(d) = head_defect(s, waiting) {
        return Some(d);
    }
    let front = Front {
        bytes: s,
        waiting,
        opened: usize::from(head::opened(s)),
        next: head::next(s),
        limit: limits::checkpoints(s),
    };
    if let Some(d) = transactors(&front) {
        return Some(d);
    }
    all_messages(&front)
}

// The first clause of the form that fails, and where, or nothing where the image is well-formed. Refused as 16.
pub fn first_defect(image: &[u8]) -> Result<Option<Defect>, Refusal>
    ensures { DefectPromise base image.now (told_refusal result) (told_defect result) }
{
    if image.len() != IMAGE {
        return Err(Refusal::WrongLength);
    }
    Ok(defect_of(image))
}
