// Whether two steps may come in either order on an image: whether neither sees what the other changes. What a step changes is found by
// playing it on a copy; what a step sees is told by its kind, its fields and the image.
#![tactic(auto)]

ghost use Rattle.std.specs.Prelude.{IfOk, ◌≡◌, not, ◌<◌, eqb, length};
ghost use Rattle.octets.specs.Bytes.{◌and◌};
ghost use Rattle.rules.specs.Layout.{base, image_bytes};
ghost use Rattle.rules.specs.State.{transactor_at};
ghost use Rattle.rules.specs.Refusals as kinds;
ghost use Rattle.rules.specs.Step.{sign};
ghost use Rattle.rules.specs.Independent as clauses;
ghost use Rattle.rules.specs.Rules.{step_of};
ghost use Rattle.rules.specs.Pack.{pack, unpack};
ghost use Rattle.rules.specs.Numbers.{refusal_in};
ghost use Rattle.rules.specs.Promises.{IndependentPromise};
ghost use Rattle.rules.specs.Internal.Well.{StepOk};
ghost use Rattle.image.specs.Formed.{state_in};
ghost use Rattle.independence.specs.Answer.{is_independent};
ghost use Rattle.independence.specs.Internal.Footprint as footprint;

use group::own;
use image::formed::Formed;
use image::layout::{CREATION, FIRST_TRANSACTOR, IMAGE, STATE, TRANSACTOR, TRANSACTORS};
use image::{head, limits, messages};
use lists::groups::is_named;
use lists::{STEP, fields, packed, refusals};
use rules::Step;
use rules::kinds::Kind;
use rules::outcomes::Outcome;
use rules::refusals::Refusal;

// ---- kinds

// root, new
fn opens(p: Step) -> bool
    ensures { result ≡ clauses.opens p.kind }
{
    matches!(Kind::try_from(p.kind), Ok(Kind::Root | Kind::New))
}

// letter, send
fn sends(p: Step) -> bool
    ensures { result ≡ kinds.sends p.kind }
{
    matches!(Kind::try_from(p.kind), Ok(Kind::Letter | Kind::Send))
}

// receive, lose
fn consumes(p: Step) -> bool
    ensures { result ≡ clauses.takes_away p.kind }
{
    matches!(Kind::try_from(p.kind), Ok(Kind::Receive | Kind::Lose))
}

// sign
fn signs(p: Step) -> bool
    ensures { result ≡ eqb p.kind sign }
{
    matches!(Kind::try_from(p.kind), Ok(Kind::Sign))
}

// ---- transactors

// To whom the waiting message with this number is addressed.
fn receiver(image: &Formed<'_>, number: u16) -> Option<usize>
    ensures { result ≡ footprint.receiver_of (state_in image.now) number }
{
    let k = messages::place_of(image.bytes, messages::waiting(image.bytes), number)?;
    Some(messages::addressee(image.bytes, k))
}

// Whether the step sees transactor t whole; so many are opened, and that one would receive.
#[tactic(auto, unfolding(crate::specs::Internal::Footprint::touches))]
fn touches(p: Step, opened: usize, to: Option<usize>, t: usize) -> bool
    requires { t < base.transactors }
    ensures { result ≡ footprint.touches opened to p t }
{
    let Ok(kind) = Kind::try_from(p.kind) else {
        return false;
    };
    match kind {
        Kind::Sign => is_named(p.message, t),
        Kind::Receive => to == Some(t),
        Kind::Root => opened == t,
        Kind::New => opened == t || usize::from(p.transactor) == t,
        Kind::Send
        | Kind::Read
        | Kind::Write
        | Kind::Freeze
        | Kind::Finish
        | Kind::Fall
        | Kind::Fail => usize::from(p.transactor) == t,
        Kind::Letter | Kind::Lose => false,
    }
}

// Whether both see some transactor whole.
#[tactic(auto, unfolding(crate::specs::Internal::Footprint::transactors_meet))]
fn transactors_meet(image: &Formed<'_>, p: Step, q: Step) -> bool
    ensures { result ≡ footprint.transactors_meet base (state_in image.now) p q }
{
    let opened = usize::from(head::opened(image.bytes));
    let first = receiver(image, p.message);
    let second = receiver(image, q.message);
    (0..TRANSACTORS).any(|t| touches(p, opened, first, t) && touches(q, opened, second, t))
}

// Whether the step is a letter or a send to transactor t.
#[tactic(auto, unfolding(crate::specs::Internal::Footprint::addresses))]
fn addresses(q: Step, t: u8) -> bool
    ensures { result ≡ footprint.addresses q t }
{
    match Kind::try_from(q.kind) {
        Ok(Kind::Letter) => q.transactor == t,
        Ok(Kind::Send) => q.other == t,
        _ => false,
    }
}

// ---- messages

// The number of the message that the step makes, receives or loses.
#[tactic(auto, unfolding(crate::specs::Internal::Footprint::handled))]
fn handled(next: u16, p: Step) -> u16
    ensures { result ≡ footprint.handled next p }
{
    if sends(p) { next } else { p.message }
}

// Whether the step makes, receives or loses a message.
fn handles(p: Step) -> bool
    ensures { result ≡ footprint.handles p.kind }
{
    consumes(p) || sends(p)
}

// Whether p frees a place where none is free (full), and q wants one; or both make, receive or lose the same message.
#[tactic(auto, unfolding(crate::specs::Internal::Footprint::parcels_meet))]
fn messages_meet(next: u16, full: bool, p: Step, q: Step) -> bool
    ensures { result ≡ footprint.parcels_meet next full p q }
{
    full && consumes(p) && sends(q)
        || handles(p) && handles(q) && handled(next, p) == handled(next, q)
}

// Whether p opens the transactor to which q is addressed, or they meet in a message or in the room for one.
#[tactic(auto, unfolding(crate::specs::Internal::Footprint::heads_meet))]
fn heads_meet(image: &Formed<'_>, p: Step, q: Step) -> bool
    ensures { result ≡ footprint.heads_meet (state_in image.now) p q }
{
    if opens(p) {
        return addresses(q, head::opened(image.bytes));
    }
    let full = usize::from(limits::messages(image.bytes)) <= messages::waiting(image.bytes);
    messages_meet(head::next(image.bytes), full, p, q)
}

// ---- lists of checkpoints

// Whether the own history of transactor t has another list in the copy.
fn relisted(image: &Formed<'_>, copy: &Formed<'_>, t: usize) -> bool
    requires { t < base.transactors }
    ensures { result ≡ footprint.relisted (state_in image.now) (state_in copy.now) t }
{
    let mut before = own(image, t);
    let mut after = own(copy, t);
    // of the two lists alone
    before.incarnation = 0;
    after.incarnation = 0;
    !before.same_incarnation(after)
}

// Whether transactor t has a history of transactor u in its state or creation map.
fn has_history(image: &Formed<'_>, t: usize, u: usize) -> bool
    requires { (t < base.transactors) × (u < base.transactors) }
    ensures { result ≡ clauses.has_mark (transactor_at (state_in image.now) t) u }
{
    let at = FIRST_TRANSACTOR + TRANSACTOR * t;
    let state = at + STATE + marks::SIZE * u;
    let creation = at + CREATION + marks::SIZE * u;
    packed_histories::present(image.bytes, state)
        || packed_histories::present(image.bytes, creation)
}

// Whether one that the group names has.
fn have_history(image: &Formed<'_>, group: u16, u: usize) -> bool
    requires { u < base.transactors }
    ensures { result ≡ footprint.has_marks (state_in image.now) group u }
{
    (0..TRANSACTORS).any(|t| is_named(group, t) && has_history(image, t, u))
}

// Whether q, a signing, looks at the checkpoints of a transactor that has another list in the copy.
#[tactic(auto, unfolding(crate::specs::Internal::Footprint::lists_meet))]
fn lists_meet(image: &Formed<'_>, copy: &Formed<'_>, q: Step) -> bool
    ensures { result ≡ footprint.lists_meet base (state_in image.now) (state_in copy.now) q }
{
    signs(q)
        && (0..TRANSACTORS).any(|t| relisted(image, copy, t) && have_history(image, q.message, t))
}

// ---- two steps

// Plays the step on a copy of the image: its outcome or refusal.
fn play(image: &Formed<'_>, copy: &mut [u8], p: Step) -> u8
    requires { (length copy.old ≡ image_bytes base) × StepOk p }
    ensures { (result ≡ (step_of base (state_in image.now) p).reply.outcome) × (copy.new ≡ pack base (step_of base (state_in image.now) p).state) }
{
    octets::write(copy, 0, image.bytes);
    let mut waiting = messages::waiting(image.bytes);
    let r = steps::step(copy, &mut waiting, p);
    r.outcome
}

// Whether p, which has this outcome, leaves the transactors that it sees as they were: a send, or a signing that is not ready.
#[tactic(auto, unfolding(crate::specs::Internal::Footprint::leaves_by))]
fn leaves(p: Step, outcome: u8) -> bool
    ensures { result ≡ footprint.leaves_by p outcome }
{
    match Kind::try_from(p.kind) {
        Ok(Kind::Send) => true,
        Ok(Kind::Sign) => outcome == Outcome::NotReady.number(),
        _ => false,
    }
}

// Whether p, which has this outcome, changes a transactor that q sees whole.
fn changes_meet(image: &Formed<'_>, p: Step, q: Step, outcome: u8) -> bool
    ensures { result ≡ not (footprint.leaves_by p outcome) and footprint.transactors_meet base (state_in image.now) p q }
{
    !leaves(p, outcome) && transactors_meet(image, p, q)
}

// Whether q sees something that p changes. The copy is for the play.
fn meets(image: &Formed<'_>, copy: &mut [u8], p: Step, q: Step) -> bool
    requires { (length copy.old ≡ image_bytes base) × StepOk p }
    ensures { (result ≡ footprint.meets base (state_in image.now) p q) × (length copy.new ≡ image_bytes base) }
{
    if fields::malformed(q) {
        return false;
    }
    let outcome = play(image, copy, p);
    if refusals::is_refusal(outcome) {
        return false;
    }
    if heads_meet(image, p, q) {
        return true;
    }
    if changes_meet(image, p, q, outcome) {
        return true;
    }
    let played = Formed { bytes: copy };
    lists_meet(image, &played, q)
}

// The image, lent as one that is well-formed; or 16, 17 for a step that has not eight bytes, 19.
#[tactic(auto, unfolding(rules::specs::Independent::independent_refusal))]
fn check<'a>(image: &'a [u8], first: &[u8], second: &[u8]) -> Result<Formed<'a>, Refusal>
    ensures refused { refusal_in result ≡ clauses.independent_refusal base image.now first.now second.now }
    ensures lent { IfOk result (λ f. f.bytes.now ≡ image.now) }
{
    if image.len() != IMAGE {
        return Err(Refusal::WrongLength);
    }
    if first.len() != STEP || second.len() != STEP {
        return Err(Refusal::WrongPart);
    }
    if !form::formed(image) {
        return Err(Refusal::IllFormed);
    }
    Ok(Formed { bytes: image })
}

// Whether the two packed steps are independent on the image: whether neither sees what the other changes. Refused as 16, 17 for a step that has
// not eight bytes, or 19.
pub fn independent(image: &[u8], first: &[u8], second: &[u8]) -> Result<bool, Refusal>
    ensures { IndependentPromise base image.now first.now second.now (refusal_in result) (is_independent result) }
{
    let formed = check(image, first, second)?;
    let p = packed::decode(first, 0);
    let q = packed::decode(second, 0);
    let mut copy = [0u8; IMAGE];
    if meets(&formed, &mut copy, p, q) {
        return Ok(false);
    }
    Ok(!meets(&formed, &mut copy, q, p))
}
