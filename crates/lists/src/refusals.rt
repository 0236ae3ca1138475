// The refusals of a step over plain numbers, in the table's order: ledger and engine ask them, each of what it keeps itself.
ghost use Rattle.std.specs.Prelude.{◌≡◌};
ghost use Rattle.rules.specs.Numbers.{refusal_in};
ghost use Rattle.rules.specs.Step.{is_refusal};
ghost use Rattle.rules.specs.Internal.Guards.{busy_refusal, room_refusal, receiver_refusal, local_refusal, names_refusal, member_refusal};

use crate::groups::names_from;
use crate::limits::LAST_NUMBER;
use rules::kinds::Kind;
use rules::refusals::Refusal;
use rules::statuses::Status;

// Whether a reply's number is a refusal and not an outcome.
pub fn is_refusal(outcome: u8) -> bool
    ensures { result ≡ is_refusal outcome }
{
    Refusal::Malformed.number() <= outcome
}

// 21, 22, 23 of transactor t, which must be busy.
#[tactic(auto, unfolding(rules::specs::Internal::Guards::busy_refusal))]
pub fn busy(opened: u8, t: u8, status: u8) -> Result<(), Refusal>
    ensures { refusal_in result ≡ busy_refusal opened t status }
{
    if opened <= t {
        return Err(Refusal::Unopened);
    }
    if status == Status::Annihilated.number() {
        return Err(Refusal::Gone);
    }
    if status != Status::Busy.number() {
        return Err(Refusal::WrongStatus);
    }
    Ok(())
}

// 26, 27 of one message more.
#[tactic(auto, unfolding(rules::specs::Internal::Guards::room_refusal))]
pub fn room(most: usize, waiting: usize, next: u16) -> Result<(), Refusal>
    ensures { refusal_in result ≡ room_refusal most waiting next }
{
    if most <= waiting {
        return Err(Refusal::AllWaiting);
    }
    if next == LAST_NUMBER {
        return Err(Refusal::AllNumbered);
    }
    Ok(())
}

// 22, 23 of the receiver of a message that waits.
#[tactic(auto, unfolding(rules::specs::Internal::Guards::receiver_refusal))]
pub fn receiver(status: u8) -> Result<(), Refusal>
    ensures { refusal_in result ≡ receiver_refusal status }
{
    if status == Status::Annihilated.number() {
        return Err(Refusal::Gone);
    }
    if status != Status::Idle.number() {
        return Err(Refusal::WrongStatus);
    }
    Ok(())
}

// 22, 23 of a transactor that acts by a kind from 5 to 10.
#[tactic(auto, unfolding(rules::specs::Internal::Guards::local_refusal))]
pub fn local(kind: u8, status: u8) -> Result<(), Refusal>
    ensures { refusal_in result ≡ local_refusal kind status }
{
    if status == Status::Annihilated.number() {
        return Err(Refusal::Gone);
    }
    if Kind::Fall.number() < kind {
        return Ok(());
    }
    if status != Status::Busy.number() {
        return Err(Refusal::WrongStatus);
    }
    Ok(())
}

// 29, 21 of a signing: of the group alone.
#[tactic(auto, unfolding(rules::specs::Internal::Guards::names_refusal))]
pub fn group(opened: u8, group: u16) -> Result<(), Refusal>
    ensures { refusal_in result ≡ names_refusal opened group }
{
    if group == 0 {
        return Err(Refusal::EmptyGroup);
    }
    if names_from(group, opened as usize) {
        return Err(Refusal::Unopened);
    }
    Ok(())
}

// 22, 30 of a signing: of one transactor that the group names; most: the session's checkpoints.
#[tactic(auto, unfolding(rules::specs::Internal::Guards::member_refusal))]
pub fn member(most: u8, status: u8, count: u8) -> Result<(), Refusal>
    ensures { refusal_in result ≡ member_refusal most status count }
{
    if status == Status::Annihilated.number() {
        return Err(Refusal::Gone);
    }
    if most <= count {
        return Err(Refusal::AllCheckpointed);
    }
    Ok(())
}
