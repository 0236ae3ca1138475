// Replies in words.
#![tactic(auto)]

ghost use Rattle.std.specs.Prelude.{◌≡◌, ◌+◌, ◌-◌, ◌≤◌, ◌<◌, eqb, length};
ghost use Rattle.octets.specs.Bytes.{pick, ◌and◌, ◌or◌, part};
ghost use Rattle.rules.specs.Step.{step_bytes, receive};
ghost use Rattle.lines.specs.Lines.{written, plus, Says};
ghost use Rattle.replies.specs.Replies.{replies_transactor, replies_message, replies_value, field_text, fields_text, is_outcome, sentence_of, refusal_text, is_refused, reply_text, reply_text_at};

use lines::Line;
use lists::packed;
use lists::refusals::is_refusal;
use rules::Reply;
use rules::kinds::Kind;
use rules::outcomes::Outcome;
use rules::refusals::Refusal;

const OUTCOMES: [&[u8]; 6] = [
    b"done",
    b"held",
    b"dropped",
    b"fallen back",
    b"vanished",
    b"not ready",
];

#[tactic(auto, unfolding(crate::specs::Replies::replies_transactor))]
fn replies_transactor(kind: u8) -> bool
    ensures { result ≡ replies_transactor kind }
{
    kind <= Kind::Fail.number()
}

#[tactic(auto, unfolding(crate::specs::Replies::replies_message))]
fn replies_message(kind: u8) -> bool
    ensures { result ≡ replies_message kind }
{
    kind == Kind::Letter.number()
        || kind == Kind::Receive.number()
        || kind == Kind::Send.number()
        || kind == Kind::Lose.number()
}

#[tactic(auto, unfolding(crate::specs::Replies::replies_value))]
fn replies_value(kind: u8, outcome: u8) -> bool
    ensures { result ≡ replies_value kind outcome }
{
    outcome == Outcome::Done.number()
        && (kind == Kind::Receive.number() || kind == Kind::Read.number())
}

// Whether it is an outcome, with zero in every field that the reply does not have.
#[tactic(auto, unfolding(crate::specs::Replies::is_outcome))]
fn is_outcome(kind: u8, r: Reply) -> bool
    ensures { result ≡ is_outcome kind r }
{
    r.outcome <= Outcome::NotReady.number()
        && (replies_transactor(kind) || r.transactor == 0)
        && (replies_message(kind) || r.message == 0)
        && (replies_value(kind, r.outcome) || r.value == 0)
}

// Whether it is a refusal of a step, with zero in all fields.
#[tactic(auto, unfolding(crate::specs::Replies::is_refused))]
fn is_refused(r: Reply) -> bool
    ensures { result ≡ is_refused r }
{
    is_refusal(r.outcome)
        && r.outcome <= Refusal::Unrelated.number()
        && r.transactor == 0
        && r.message == 0
        && r.value == 0
}

// The word w and a number, if the reply has that field.
fn field(l: Line, used: bool, w: &[u8], n: u32) -> Line
    ensures { written result ≡ plus (written l) (field_text used w.now n) }
{
    if used {
        return l.word(w).number(n);
    }
    l
}

fn fields(l: Line, kind: u8, r: Reply) -> Line
    ensures { written result ≡ plus (written l) (fields_text kind r) }
{
    let transactors = field(l, replies_transactor(kind), b" take ", r.transactor as u32);
    let messages = field(
        transactors,
        replies_message(kind),
        b" parcel ",
        r.message as u32,
    );
    field(messages, replies_value(kind, r.outcome), b" text ", r.value)
}

// Why a step of that kind is refused with n.
fn sentence(l: Line, kind: u8, n: u8) -> Line
    ensures { written result ≡ plus (written l) (sentence_of kind n) }
{
    if n != Refusal::WrongStatus.number() {
        return refusal_words::words(l, n);
    }
    if kind != Kind::Receive.number() {
        return l.word(b"acting take not at work");
    }
    l.word(b"receiving take not idle")
}

fn refused(l: Line, kind: u8, n: u8) -> Line
    ensures { written result ≡ plus (written l) (refusal_text kind n) }
{
    let number = l.word(b"refused ").number(n as u32).word(b": ");
    sentence(number, kind, n)
}

// The reply at at, to a step of that kind, in words.
fn reply_at(kind: u8, replies: &[u8], at: usize) -> Line
    requires { at + step_bytes ≤ length replies.now }
    ensures { Says result (reply_text kind (part at step_bytes replies.now)) }
{
    let r = packed::decode_reply(replies, at);
    if is_outcome(kind, r) {
        let l = Line::EMPTY.word(OUTCOMES[r.outcome as usize]);
        return fields(l, kind, r);
    }
    if is_refused(r) {
        return refused(Line::EMPTY, kind, r.outcome);
    }
    Line::EMPTY.word(b"raw ").hex(&replies[at..at + 8])
}

// The reply to step i of a list in words; empty past the last step or reply.
pub fn reply_line(list: &[u8], replies: &[u8], i: usize) -> Line
    ensures { Says result (reply_text_at list.now replies.now i) }
{
    if list.len() / 8 <= i {
        return Line::EMPTY;
    }
    if replies.len() / 8 <= i {
        return Line::EMPTY;
    }
    let p = packed::decode(list, 8 * i);
    reply_at(p.kind, replies, 8 * i)
}
