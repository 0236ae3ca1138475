// Which field of an image a byte belongs to: for a caller that shows images, or says where two differ.
#![tactic(auto)]

ghost use Rattle.std.specs.Prelude.{◌≡◌, ◌<◌};
ghost use Rattle.rules.specs.Layout.{base, map_bytes, transactor_bytes, message_bytes, image_bytes};
ghost use Rattle.fields.specs.Field.{kind_number, front_field, history_field, map_field, transactor_field, message_field, field_of};

use image::layout::{
    CONTENT, DEPENDENCES, FIRST_MESSAGE, FIRST_TRANSACTOR, IMAGE, MESSAGE, NUMBER, SAVED, STATE,
    TRANSACTOR, VALUE,
};

// A field, and which of its bytes.
#[repr(C)]
#[derive(Clone, Copy)]
pub struct Field {
    // what stands there: the numbers of specs/Field.antt
    pub kind: u8,
    // the transactor, or the place of the message
    pub holder: u8,
    // of a history, in which map: 0 state, 1 creation, 2 behaviour, 3 the message's
    pub map: u8,
    // of a history, whose it is
    pub support: u8,
    // of a history's list, which entry, from 0
    pub entry: u8,
    // which byte, from 0, the most significant one
    pub byte: u8,
}

// What stands in a field.
#[derive(Clone, Copy, Debug, PartialEq, Eq)]
enum FieldKind {
    // past the image
    Nothing = 0,
    // how many transactors are opened
    Opened = 1,
    // the next message number
    Next = 2,
    // zero, of the head
    HeadZero = 3,
    // the session's limits: transactors opened, messages waiting, checkpoints of one transactor
    Transactors = 4,
    Messages = 5,
    Checkpoints = 6,
    // zero, of the limits
    LimitsZero = 7,
    Status = 8,
    Value = 9,
    Saved = 10,
    Addressee = 11,
    Number = 12,
    Content = 13,
    Flags = 14,
    Incarnation = 15,
    Checkpoint = 16,
}

// A field that is no part of a map.
fn plain(kind: FieldKind, holder: u8, byte: u8) -> Field
    ensures { result ≡ record { kind = kind_number kind; holder = holder; map = 0; support = 0; entry = 0; byte = byte } }
{
    Field {
        kind: kind as u8,
        holder,
        map: 0,
        support: 0,
        entry: 0,
        byte,
    }
}

// Byte at of the head and the limits.
#[tactic(auto, unfolding(crate::specs::Field::front_field))]
fn of_front(at: u8) -> Field
    ensures { at < 8 → result ≡ front_field at }
{
    match at {
        0 => plain(FieldKind::Opened, 0, 0),
        1 | 2 => plain(FieldKind::Next, 0, at - 1),
        3 => plain(FieldKind::HeadZero, 0, 0),
        4 => plain(FieldKind::Transactors, 0, 0),
        5 => plain(FieldKind::Messages, 0, 0),
        6 => plain(FieldKind::Checkpoints, 0, 0),
        _ => plain(FieldKind::LimitsZero, 0, 0),
    }
}

// Byte at of the history of that transactor in a map.
#[tactic(auto, unfolding(crate::specs::Field::history_field))]
fn of_history(map: u8, holder: u8, support: u8, at: u8) -> Field
    ensures { result ≡ history_field base map holder support at }
{
    if at < 1 {
        return Field {
            kind: FieldKind::Flags as u8,
            holder,
            map,
            support,
            entry: 0,
            byte: 0,
        };
    }
    if at < 3 {
        return Field {
            kind: FieldKind::Incarnation as u8,
            holder,
            map,
            support,
            entry: 0,
            byte: at - 1,
        };
    }
    let rest = at - 3;
    Field {
        kind: FieldKind::Checkpoint as u8,
        holder,
        map,
        support,
        entry: rest / 2,
        byte: rest % 2,
    }
}

// Byte at of a map.
#[tactic(auto, unfolding(crate::specs::Field::map_field))]
fn of_map(map: u8, holder: u8, at: usize) -> Field
    requires { at < map_bytes base }
    ensures { result ≡ map_field base map holder at }
{
    let support = at / marks::SIZE;
    let rest = at % marks::SIZE;
    of_history(map, holder, support as u8, rest as u8)
}

// Byte at of a transactor.
#[tactic(auto, unfolding(crate::specs::Field::transactor_field))]
fn of_transactor(holder: u8, at: usize) -> Field
    requires { at < transactor_bytes base }
    ensures { result ≡ transactor_field base holder at }
{
    if at < VALUE {
        return plain(FieldKind::Status, holder, 0);
    }
    if at < SAVED {
        let byte = at - VALUE;
        return plain(FieldKind::Value, holder, byte as u8);
    }
    if at < STATE {
        let byte = at - SAVED;
        return plain(FieldKind::Saved, holder, byte as u8);
    }
    let rest = at - STATE;
    let map = rest / maps::SIZE;
    of_map(map as u8, holder, rest % maps::SIZE)
}

// Byte at of a message's place.
#[tactic(auto, unfolding(crate::specs::Field::message_field))]
fn of_message(holder: u8, at: usize) -> Field
    requires { at < message_bytes base }
    ensures { result ≡ message_field base holder at }
{
    if at < NUMBER {
        return plain(FieldKind::Addressee, holder, 0);
    }
    if at < CONTENT {
        let byte = at - NUMBER;
        return plain(FieldKind::Number, holder, byte as u8);
    }
    if at < DEPENDENCES {
        let byte = at - CONTENT;
        return plain(FieldKind::Content, holder, byte as u8);
    }
    of_map(3, holder, at - DEPENDENCES)
}

// The field that byte at of an image belongs to; past the image, all are 0.
#[tactic(auto, unfolding(crate::specs::Field::field_of))]
pub fn field_at(at: usize) -> Field
    ensures { result ≡ field_of base at }
{
    if at < FIRST_TRANSACTOR {
        return of_front(at as u8);
    }
    if at < FIRST_MESSAGE {
        let rest = at - FIRST_TRANSACTOR;
        let t = rest / TRANSACTOR;
        return of_transactor(t as u8, rest % TRANSACTOR);
    }
    if at < IMAGE {
        let rest = at - FIRST_MESSAGE;
        let k = rest / MESSAGE;
        return of_message(k as u8, rest % MESSAGE);
    }
    plain(FieldKind::Nothing, 0, 0)
}
