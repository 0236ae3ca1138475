// The refusals of a step that look at a whole row or slot, in the table's order; those over plain numbers stand in crate lists.
ghost use Rattle.std.specs.Prelude.{◌≡◌, not};
ghost use Rattle.octets.specs.Bytes.{◌and◌};
ghost use Rattle.rules.specs.Numbers.{refusal_in};
ghost use Rattle.engine_tables.specs.Internal.Register.{row_at};
ghost use Rattle.engine_tables.specs.Internal.Guards.{last_row, local_guard, receipt_guard, any_unstable, named_guard, group_guard};

use crate::effects;
use crate::register::Register;
use crate::table::{Row, Slot};
use lists::groups::is_named;
use lists::limits::TRANSACTORS;
use lists::refusals;
use rules::kinds::Kind;
use rules::refusals::Refusal;
use rules::statuses::Status;

// 22, 23, 28 of a kind from 5 to 10.
#[tactic(auto, unfolding(crate::specs::Internal::Guards::local_guard))]
pub fn local(x: Row, kind: u8) -> Result<(), Refusal>
    ensures { refusal_in result ≡ local_guard kind x }
{
    refusals::local(kind, x.status)?;
    if Kind::Fall.number() <= kind && !x.stable && effects::is_last(x) {
        return Err(Refusal::LastIncarnation);
    }
    Ok(())
}

// 24, 22, 23 of a receipt.
#[tactic(auto, unfolding(crate::specs::Internal::Guards::receipt_guard))]
pub fn receipt(slot: Slot, row: Row) -> Result<(), Refusal>
    ensures { refusal_in result ≡ receipt_guard slot row }
{
    if slot.missing {
        return Err(Refusal::NotWaiting);
    }
    refusals::receiver(row.status)
}

// 28 of a receipt: whether its receiver falls from the largest incarnation number.
pub fn last_receipt(x: Row, dropped: bool, rolls: bool) -> bool
    ensures { result ≡ not dropped and rolls and last_row x }
{
    !dropped && rolls && effects::is_last(x)
}

// Whether some named transactor is not stable.
pub fn unstable(rows: [Row; 16], group: u16) -> bool
    ensures { result ≡ any_unstable (row_at rows) group }
{
    (0..TRANSACTORS).any(|t| is_named(group, t) && !rows[t].stable)
}

// 22, or else 30, of the named transactors. group::check_members asks an image: one function with two closures would have each caller prove
// what its closures require and name, no plainer.
fn blocked(rows: [Row; 16], most: u8, group: u16) -> Result<(), Refusal>
    ensures { refusal_in result ≡ named_guard most (row_at rows) group }
{
    if (0..TRANSACTORS).any(|t| is_named(group, t)
        && rows[t].status == Status::Annihilated.number())
    {
        return Err(Refusal::Gone);
    }
    if (0..TRANSACTORS).any(|t| is_named(group, t) && most <= rows[t].checkpoints) {
        return Err(Refusal::AllCheckpointed);
    }
    Ok(())
}

// 29, 21, 22, 30 of a signing.
pub fn group(x: Register, rows: [Row; 16], group: u16) -> Result<(), Refusal>
    ensures { refusal_in result ≡ group_guard x (row_at rows) group }
{
    refusals::group(x.opened, group)?;
    blocked(rows, x.checkpoints, group)
}
