// The steps on the engine's tables, kind by kind: no map, and no walk (document 02, W11). Each refuses in the table's order, or replies
// and changes what it looks at; of a receipt and of a signing the caller has asked all refusals that need no walk.
ghost use Rattle.std.specs.Prelude.{◌≡◌, false, ◌≤◌, ◌<◌};
ghost use Rattle.rules.specs.Rules.{answer};
ghost use Rattle.rules.specs.Step.{root, letter, receive, new, send, read, fail, lose, sign};
ghost use Rattle.rules.specs.Refusals.{group_bits, malformed};
ghost use Rattle.engine_tables.specs.Internal.Register.{row_at};
ghost use Rattle.engine_tables.specs.Internal.Guards.{receipt_guard, group_guard};
ghost use Rattle.engine_tables.specs.Internal.Turns.{Turns, Receives, Signs, RepliesOutcome, Asked, operands_of, answers, answers_group, turn_in, group_turn_in, opens, sends_to};

use crate::register::Register;
use crate::table::{Row, Slot};
use crate::{effects, guards};
use lists::refusals;
use rules::outcomes::Outcome;
use rules::refusals::Refusal;
use rules::{Reply, Step};

// What a step but a signing looks at, and what it leaves: the register, a transactor, and the slot of a message number.
#[derive(Clone, Copy)]
pub struct Operands {
    pub register: Register,
    // Which transactor: after a root or a new the one that was opened.
    pub at: usize,
    pub row: Row,
    pub slot: Slot,
}

// A step's reply, and what it leaves.
#[derive(Clone, Copy)]
pub struct Turn {
    pub reply: Reply,
    pub operands: Operands,
}

// A signing's, which looks at all transactors and at no message.
#[derive(Clone, Copy)]
pub struct GroupTurn {
    pub reply: Reply,
    pub rows: [Row; 16],
}

// No message waits.
pub const EMPTY: Slot = Slot {
    missing: true,
    letter: false,
    addressee: 0,
    content: 0,
};

impl Operands {
    // On one line where a loop makes them.
    pub fn of(register: Register, at: usize, row: Row, slot: Slot) -> Operands
        ensures { result ≡ operands_of register at row slot }
    {
        Operands {
            register,
            at,
            row,
            slot,
        }
    }
}

fn reply(outcome: u8, transactor: u8, message: u16, value: u32) -> Reply
    ensures { result ≡ answer outcome transactor message value }
{
    Reply {
        outcome,
        transactor,
        message,
        value,
    }
}

// A reply that is an outcome or a refusal alone; nothing changes.
pub fn answered(x: Operands, number: u8) -> Turn
    ensures { result ≡ answers x number }
{
    Turn {
        reply: reply(number, 0, 0, 0),
        operands: x,
    }
}

// A signing's reply, which is a number alone, with the rows that it leaves. Beside answered: the two build another value, and share `reply`.
pub fn group_answered(rows: [Row; 16], number: u8) -> GroupTurn
    ensures { result ≡ answers_group rows number }
{
    let alone = reply(number, 0, 0, 0);
    GroupTurn { reply: alone, rows }
}

// The turn; or, refused, a reply that is the refusal alone, and nothing changes.
pub fn played(x: Operands, turn: Result<Turn, Refusal>) -> Turn
    ensures { result ≡ turn_in x turn }
{
    match turn {
        Ok(u) => u,
        Err(r) => answered(x, r.number()),
    }
}

// The same of a signing.
pub fn group_played(rows: [Row; 16], turn: Result<GroupTurn, Refusal>) -> GroupTurn
    ensures { result ≡ group_turn_in rows turn }
{
    match turn {
        Ok(u) => u,
        Err(r) => group_answered(rows, r.number()),
    }
}

// One more transactor, a child or not.
fn opening(x: Operands, value: u32) -> Turn
    requires { x.register.opened < group_bits }
    ensures { result ≡ opens x value }
{
    let register = x.register;
    Turn {
        reply: reply(Outcome::Done.number(), register.opened, 0, 0),
        operands: Operands {
            register: register.with_opened(),
            at: usize::from(register.opened),
            row: effects::opened(value),
            slot: x.slot,
        },
    }
}

// One more message, by transactor t, or a letter to it.
fn sending(x: Operands, letter: bool, t: u8, to: u8, content: u32) -> Turn
    requires { (x.register.next < 65535) × (x.register.waiting < 255) }
    ensures { result ≡ sends_to x letter t to content }
{
    let register = x.register;
    Turn {
        reply: reply(Outcome::Done.number(), t, register.next, 0),
        operands: Operands {
            register: register.with_number(),
            slot: Slot {
                missing: false,
                letter,
                addressee: to,
                content,
            },
            ..x
        },
    }
}

pub fn root(x: Operands, p: Step) -> Result<Turn, Refusal>
    requires { Asked root x p }
    ensures { Turns x p (turn_in x result) × RepliesOutcome result }
{
    let register = x.register;
    if register.transactors <= register.opened {
        return Err(Refusal::AllOpened);
    }
    Ok(opening(x, p.value))
}

pub fn letter(x: Operands, p: Step) -> Result<Turn, Refusal>
    requires { Asked letter x p }
    ensures { Turns x p (turn_in x result) × RepliesOutcome result }
{
    let register = x.register;
    let to = p.transactor;
    if register.opened <= to {
        return Err(Refusal::Unopened);
    }
    refusals::room(
        register.messages as usize,
        register.waiting as usize,
        register.next,
    )?;
    Ok(sending(x, true, to, to, p.value))
}

pub fn new(x: Operands, p: Step) -> Result<Turn, Refusal>
    requires { Asked new x p }
    ensures { Turns x p (turn_in x result) × RepliesOutcome result }
{
    let register = x.register;
    refusals::busy(register.opened, p.transactor, x.row.status)?;
    if register.transactors <= register.opened {
        return Err(Refusal::AllOpened);
    }
    Ok(opening(x, p.value))
}

pub fn send(x: Operands, p: Step) -> Result<Turn, Refusal>
    requires { Asked send x p }
    ensures { Turns x p (turn_in x result) × RepliesOutcome result }
{
    let register = x.register;
    if register.opened <= p.other {
        return Err(Refusal::Unopened);
    }
    refusals::busy(register.opened, p.transactor, x.row.status)?;
    refusals::room(
        register.messages as usize,
        register.waiting as usize,
        register.next,
    )?;
    Ok(sending(x, false, p.transactor, p.other, p.value))
}

// Kinds 5 to 10.
pub fn local(x: Operands, p: Step) -> Result<Turn, Refusal>
    requires { Asked p.kind x p × (read ≤ p.kind) × (p.kind ≤ fail) }
    ensures { Turns x p (turn_in x result) × RepliesOutcome result }
{
    if x.register.opened <= p.transactor {
        return Err(Refusal::Unopened);
    }
    guards::local(x.row, p.kind)?;
    let e = effects::local(x.row, p.kind, p.value);
    Ok(Turn {
        reply: reply(e.outcome, p.transactor, 0, e.value),
        operands: Operands { row: e.row, ..x },
    })
}

pub fn lose(x: Operands, p: Step) -> Result<Turn, Refusal>
    requires { Asked lose x p }
    ensures { Turns x p (turn_in x result) × RepliesOutcome result }
{
    if x.slot.missing {
        return Err(Refusal::NotWaiting);
    }
    Ok(Turn {
        reply: reply(Outcome::Done.number(), 0, p.message, 0),
        operands: Operands {
            register: x.register.without_number(),
            slot: EMPTY,
            ..x
        },
    })
}

// A receipt that the table refuses for 28 at most.
pub fn receive(x: Operands, p: Step, dropped: bool, rolls: bool) -> Result<Turn, Refusal>
    requires { Asked receive x p × (receipt_guard x.slot x.row ≡ 0) }
    ensures { Receives dropped rolls x p (turn_in x result) × RepliesOutcome result }
{
    if guards::last_receipt(x.row, dropped, rolls) {
        return Err(Refusal::LastIncarnation);
    }
    let slot = x.slot;
    let e = effects::receive(x.row, dropped, rolls, slot.content);
    Ok(Turn {
        reply: reply(e.outcome, slot.addressee, p.message, e.value),
        operands: Operands {
            register: x.register.without_number(),
            row: e.row,
            slot: EMPTY,
            ..x
        },
    })
}

// A signing that the table does not refuse.
pub fn sign(x: Register, rows: [Row; 16], p: Step, ready: bool) -> GroupTurn
    requires { (malformed p ≡ false) × (p.kind ≡ sign) × (group_guard x (row_at rows) p.message ≡ 0) }
    ensures { Signs ready x rows p result }
{
    if !ready {
        return group_answered(rows, Outcome::NotReady.number());
    }
    let signed = effects::checkpointed_group(rows, p.message);
    group_answered(signed, Outcome::Done.number())
}
