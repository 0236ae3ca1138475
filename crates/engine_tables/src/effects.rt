// What steps do to one transactor, and a signing to those of a group.
ghost use Rattle.std.specs.Prelude.{◌≡◌, false, not, ◌<◌, ◌≤◌, leb};
ghost use Rattle.octets.specs.Bytes.{◌and◌};
ghost use Rattle.rules.specs.Numbers.{outcome_number};
ghost use Rattle.rules.specs.Step.{read, fall};
ghost use Rattle.engine_tables.specs.Internal.Tables.{row_stays, opened_row, rollback_row, local_row, receive_row};
ghost use Rattle.engine_tables.specs.Internal.Register.{checkpointed_row, CheckpointedRows, Fits, Room};
ghost use Rattle.engine_tables.specs.Internal.Guards.{last_row};

use crate::table::{Row, RowEffect};
use lists::groups::is_named;
use lists::limits;
use rules::kinds::Kind;
use rules::outcomes::Outcome;
use rules::statuses::Status;

// A transactor not opened; one that is gone differs in the status.
pub const UNUSED: Row = Row {
    status: Status::Unused as u8,
    stable: false,
    checkpoints: 0,
    incarnation: 0,
    value: 0,
    saved: 0,
};

// One that has been opened.
pub fn opened(value: u32) -> Row
    ensures { result ≡ opened_row value }
{
    Row {
        status: Status::Idle.number(),
        stable: false,
        checkpoints: 0,
        incarnation: 0,
        value,
        saved: 0,
    }
}

// 28: whether it has been checkpointed and is at the largest incarnation number.
#[tactic(auto, unfolding(crate::specs::Internal::Guards::last_row))]
pub fn is_last(x: Row) -> bool
    ensures { result ≡ last_row x }
{
    x.checkpoints != 0 && limits::LAST <= x.incarnation
}

fn stays(outcome: Outcome, row: Row) -> RowEffect
    ensures { result ≡ row_stays (outcome_number outcome) row }
{
    RowEffect {
        outcome: outcome.number(),
        value: 0,
        row,
    }
}

// Never checkpointed, it is gone; else the next incarnation with the saved value.
#[tactic(auto, unfolding(crate::specs::Internal::Tables::rollback_row))]
fn rollback(x: Row) -> RowEffect
    requires { last_row x ≡ false }
    ensures { result ≡ rollback_row x }
{
    if x.checkpoints == 0 {
        return stays(
            Outcome::Vanished,
            Row {
                status: Status::Annihilated.number(),
                ..UNUSED
            },
        );
    }
    stays(
        Outcome::FallenBack,
        Row {
            status: Status::Idle.number(),
            stable: false,
            checkpoints: x.checkpoints,
            incarnation: x.incarnation + 1,
            value: x.saved,
            saved: x.saved,
        },
    )
}

// Kinds 5 to 10.
#[tactic(auto, unfolding(crate::specs::Internal::Tables::local_row, crate::specs::Internal::Tables::write_row, crate::specs::Internal::Tables::freeze_row))]
pub fn local(mut x: Row, kind: u8, value: u32) -> RowEffect
    requires { (read ≤ kind) × (leb fall kind and not x.stable and last_row x ≡ false) }
    ensures { result ≡ local_row kind value x }
{
    match Kind::try_from(kind) {
        Ok(Kind::Read) => RowEffect {
            outcome: Outcome::Done.number(),
            value: x.value,
            row: x,
        },
        Ok(Kind::Write) if x.stable => stays(Outcome::Held, x),
        Ok(Kind::Write) => {
            x.value = value;
            stays(Outcome::Done, x)
        }
        Ok(Kind::Freeze) => {
            x.stable = true;
            stays(Outcome::Done, x)
        }
        Ok(Kind::Finish) => {
            x.status = Status::Idle.number();
            stays(Outcome::Done, x)
        }
        Ok(Kind::Fall) if x.stable => {
            x.status = Status::Idle.number();
            stays(Outcome::Held, x)
        }
        _ if x.stable => stays(Outcome::Held, x),
        _ => rollback(x),
    }
}

// The receipt of a message.
#[tactic(auto, unfolding(crate::specs::Internal::Tables::receive_row))]
pub fn receive(mut x: Row, dropped: bool, rolls: bool, content: u32) -> RowEffect
    requires { not dropped and rolls and last_row x ≡ false }
    ensures { result ≡ receive_row dropped rolls content x }
{
    if dropped {
        return stays(Outcome::Dropped, x);
    }
    if rolls {
        return rollback(x);
    }
    x.status = Status::Busy.number();
    RowEffect {
        outcome: Outcome::Done.number(),
        value: content,
        row: x,
    }
}

// Checkpointed, if it is named.
#[tactic(auto, unfolding(crate::specs::Internal::Register::checkpointed_row, crate::specs::Internal::Register::Fits))]
pub fn checkpointed(x: Row, named: bool) -> Row
    requires { Fits named x }
    ensures { result ≡ checkpointed_row named x }
{
    if !named {
        return x;
    }
    Row {
        status: Status::Idle.number(),
        stable: false,
        checkpoints: x.checkpoints + 1,
        incarnation: 0,
        value: x.value,
        saved: x.value,
    }
}

// Every transactor that the group names is checkpointed.
pub fn checkpointed_group(mut rows: [Row; 16], group: u16) -> [Row; 16]
    requires { Room group rows }
    ensures { CheckpointedRows group rows result }
{
    for (t, row) in rows.iter_mut().enumerate() {
        *row = checkpointed(*row, is_named(group, t));
    }
    rows
}
