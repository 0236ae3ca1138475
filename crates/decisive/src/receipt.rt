// What the receipt of a waiting message would do (document 01: a parcel), and whose histories decide it: a receipt that changes nothing.
ghost use Rattle.std.specs.Prelude.{◌≡◌, ◌<◌};
ghost use Rattle.maps.specs.Map.{first_superseded, answer_of};
ghost use Rattle.rules.specs.Layout.{base};
ghost use Rattle.rules.specs.State.{transactor_at, message_at};
ghost use Rattle.rules.specs.Rules.{known, message_unrelated};
ghost use Rattle.rules.specs.Pack.{waiting_in, unpack};
ghost use Rattle.image.specs.Formed.{state_in};
ghost use Rattle.rules.specs.Numbers.{outcome_number, refusal_in};
ghost use Rattle.decisive.specs.Decision.{DecisionPromise, decision_in};
ghost use Rattle.decisive.specs.Internal.Judging.{judged_in, falls_by, settled_by, judged_by, judged_of};

use crate::Decision;
use group::own;
use image::formed::Formed;
use image::layout::{CREATION, FIRST_TRANSACTOR, STATE, TRANSACTOR, map_at};
use image::{head, messages};
use lists::{limits, refusals};
use maps::Comparisons;
use rules::outcomes::Outcome;
use rules::refusals::Refusal;

fn told(outcome: Outcome, transactor: usize) -> Decision
    ensures { result ≡ record { outcome = outcome_number outcome; transactor = transactor } }
{
    Decision {
        outcome: usize::from(outcome.number()),
        transactor,
    }
}

// The fall of transactor t, since its history of transactor u is superseded: 28 where it was checkpointed and is at the last incarnation.
fn falls(image: &Formed<'_>, t: usize, u: usize) -> Result<Decision, Refusal>
    requires { t < base.transactors }
    ensures { judged_in result ≡ falls_by base t (transactor_at (state_in image.now) t) u }
{
    let h = own(image, t);
    if h.count == 0 {
        return Ok(told(Outcome::Vanished, u));
    }
    if h.incarnation == limits::LAST {
        return Err(Refusal::LastIncarnation);
    }
    Ok(told(Outcome::FallenBack, u))
}

// Of a message that is not superseded: whether the receiver is.
fn settled(image: &Formed<'_>, t: usize, receiver: Option<usize>) -> Result<Decision, Refusal>
    requires { t < base.transactors }
    ensures { judged_in result ≡ settled_by base t (transactor_at (state_in image.now) t) (answer_of receiver) }
{
    let Some(u) = receiver else {
        return Ok(told(Outcome::Done, 0));
    };
    falls(image, t, u)
}

// The map of the message in place k and what transactor t rests on, compared.
fn compared(image: &Formed<'_>, t: usize, k: usize) -> Comparisons
    requires { (t < base.transactors) × (k < waiting_in base image.now.bytes.now) × (k < base.messages) }
    ensures { (result.unrelated ≡ message_unrelated base (transactor_at (state_in image.now) t) (message_at (state_in image.now) k))
        × (answer_of result.packed ≡ first_superseded base.transactors (message_at (state_in image.now) k).dependences (known base (transactor_at (state_in image.now) t)))
        × (answer_of result.own ≡ first_superseded base.transactors (known base (transactor_at (state_in image.now) t)) (message_at (state_in image.now) k).dependences) }
{
    let at = FIRST_TRANSACTOR + TRANSACTOR * t;
    let state = at + STATE;
    let creation = at + CREATION;
    transactor::receipt::compared(image.bytes, state, creation, map_at(k))
}

// The message in place k, addressed to transactor t, which is idle: 31, 28, or the decision.
fn judge(image: &Formed<'_>, t: usize, k: usize) -> Result<Decision, Refusal>
    requires { (t < base.transactors) × (k < waiting_in base image.now.bytes.now) × (k < base.messages) }
    ensures { judged_in result ≡ judged_by base t (transactor_at (state_in image.now) t) (message_at (state_in image.now) k) }
{
    let answers = compared(image, t, k);
    if answers.unrelated {
        return Err(Refusal::Unrelated);
    }
    let Some(u) = answers.packed else {
        return settled(image, t, answers.own);
    };
    Ok(told(Outcome::Dropped, u))
}

// The message with this number: 24, 22, 23, or as judged.
fn judge_numbered(image: &Formed<'_>, number: usize) -> Result<Decision, Refusal>
    ensures { judged_in result ≡ judged_of base (state_in image.now) number }
{
    let n = messages::waiting(image.bytes);
    let Some(k) = messages::place_numbered(image.bytes, n, number) else {
        return Err(Refusal::NotWaiting);
    };
    let t = messages::addressee(image.bytes, k);
    refusals::receiver(head::status(image.bytes, t).number())?;
    judge(image, t, k)
}

// What the receipt of the waiting message with this number would reply now, and the first transactor whose histories decide it; refused as
// 16, 19, or with what the receipt would get, 24, 22, 23, 31 or 28.
pub fn decide(image: &[u8], number: usize) -> Result<Decision, Refusal>
    ensures { DecisionPromise base image.now number (refusal_in result) (decision_in result) }
{
    let formed = form::check_image(image)?;
    judge_numbered(&formed, number)
}
