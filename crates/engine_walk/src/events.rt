// What a step that was not refused did, from the step and the reply to it.
ghost use Rattle.std.specs.Prelude.{◌≡◌};
ghost use Rattle.engine_chains.specs.Internal.Words.{bit_of, rollback_words, receipt_words, event_words, changes_nothing, rolled_back_word, checkpointed_word};

use engine_chains::words::Event;
use lists::refusals::is_refusal;
use rules::kinds::Kind;
use rules::outcomes::Outcome;
use rules::{Step, Told};

// The word of transactor t, or of none.
#[tactic(auto, unfolding(engine_chains::specs::Internal::Words::bit_of))]
fn bit(t: u8) -> u16
    ensures { result ≡ bit_of t }
{
    if t < 16 { 1 << t } else { 0 }
}

// t fell back or vanished.
#[tactic(auto, unfolding(engine_chains::specs::Internal::Words::rollback_words))]
fn rollback(outcome: u8, t: u16) -> Event
    ensures { result ≡ rollback_words outcome t }
{
    if outcome == Outcome::Vanished.number() {
        return Event::Annihilated(t);
    }
    Event::Renewed(t)
}

#[tactic(auto, unfolding(engine_chains::specs::Internal::Words::receipt_words))]
fn receipt(w: Told) -> Event
    ensures { result ≡ receipt_words w }
{
    let n = w.message;
    let t = bit(w.transactor);
    if w.outcome == Outcome::Dropped.number() {
        Event::Cleared(n)
    } else if w.outcome == Outcome::Done.number() {
        Event::Taken(n, t)
    } else if w.outcome == Outcome::Vanished.number() {
        Event::ClearedAnnihilated(n, t)
    } else {
        Event::ClearedRenewed(n, t)
    }
}

// A step that moves nothing is an event too, and no None: the walk looks at an event once, by one table of jumps.
#[tactic(auto, unfolding(engine_chains::specs::Internal::Words::event_words, engine_chains::specs::Internal::Words::local_words))]
pub fn event(p: Step, w: Told) -> Event
    ensures { result ≡ event_words p w }
{
    let n = w.message;
    let t = bit(p.transactor);
    let other = bit(w.transactor);
    let held = w.outcome == Outcome::Held.number();
    match Kind::try_from(p.kind) {
        Ok(Kind::Root) => Event::Renewed(other),
        Ok(Kind::Letter | Kind::Lose) => Event::Cleared(n),
        Ok(Kind::Receive) => receipt(w),
        Ok(Kind::New) => Event::Opens(t, other),
        Ok(Kind::Send) => Event::Sent(n, t),
        Ok(Kind::Sign) if w.outcome == Outcome::Done.number() => Event::Renewed(p.message),
        Ok(Kind::Sign | Kind::Freeze) => Event::Nothing,
        Ok(Kind::Read) => Event::Reads(t),
        Ok(Kind::Write) if held => Event::Nothing,
        Ok(Kind::Write) => Event::Writes(t),
        Ok(Kind::Finish) => Event::Finishes(t),
        Ok(Kind::Fall) if held => Event::Finishes(t),
        _ if held => Event::Nothing,
        _ => rollback(w.outcome, t),
    }
}

// Whether a step changed nothing: it was refused, or a signing that was not ready. It saves the walk the look at an event.
#[tactic(auto, unfolding(engine_chains::specs::Internal::Words::changes_nothing))]
pub fn unchanged(p: Step, w: Told) -> bool
    ensures { result ≡ changes_nothing p w }
{
    is_refusal(w.outcome)
        || w.outcome == Outcome::NotReady.number() && p.kind == Kind::Sign.number()
}

// The transactors that were rolled back and live on.
#[tactic(auto, unfolding(engine_chains::specs::Internal::Words::rolled_back_word))]
pub fn rolled_back(w: Told) -> u16
    ensures { result ≡ rolled_back_word w }
{
    if w.outcome == Outcome::FallenBack.number() {
        bit(w.transactor)
    } else {
        0
    }
}

// The transactors that were checkpointed.
#[tactic(auto, unfolding(engine_chains::specs::Internal::Words::checkpointed_word))]
pub fn checkpointed(p: Step, w: Told) -> u16
    ensures { result ≡ checkpointed_word p w }
{
    if p.kind == Kind::Sign.number() && w.outcome == Outcome::Done.number() {
        p.message
    } else {
        0
    }
}
