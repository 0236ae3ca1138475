// Where the row and the slot that a step looks at stand in the engine's arrays.
ghost use Rattle.std.specs.Prelude.{◌≡◌};
ghost use Rattle.octets.specs.Bytes.{pick};
ghost use Rattle.rules.specs.Refusals.{sends};
ghost use Rattle.engine_tables.specs.Internal.Places.{placed};
ghost use Rattle.engine_tables.specs.Internal.Turns.{subject_of};

use crate::table::Slot;
use lists::NUMBERS;
use rules::Step;
use rules::kinds::Kind;
use std::cmp::min;

// A place for each message number, and one, where no message ever waits, for all numbers that no message can have.
pub const PLACES: usize = NUMBERS + 1;

// Where the slot of the message number that a step looks at stands.
pub fn place(next: u16, p: Step) -> usize
    ensures { result ≡ placed (pick (sends p.kind) next p.message) }
{
    if p.kind == Kind::Letter.number() || p.kind == Kind::Send.number() {
        return within(next);
    }
    within(p.message)
}

// The place of message number n.
#[tactic(auto, unfolding(crate::specs::Internal::Places::placed))]
fn within(n: u16) -> usize
    ensures { result ≡ placed n }
{
    min(usize::from(n), NUMBERS)
}

// Whose row a step looks at, by the slot that it looks at.
#[tactic(auto, unfolding(crate::specs::Internal::Turns::subject_of))]
pub fn subject(p: Step, slot: Slot) -> usize
    ensures { result ≡ subject_of p slot }
{
    if p.kind == Kind::Receive.number() {
        return usize::from(slot.addressee);
    }
    usize::from(p.transactor)
}
