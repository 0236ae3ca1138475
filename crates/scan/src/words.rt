// What single words say: numbers of fields, members of a group, sixteen hexadecimal digits.
ghost use Rattle.std.specs.Prelude.{◌≡◌, MatchOption, true, false, ◌+◌, ◌^◌, ◌≤◌, ◌<◌};
ghost use Rattle.rules.specs.Step.{unpack_step};
ghost use Rattle.notation.specs.Notation.{field_number};
ghost use Rattle.notation.specs.Reading.{most_of, with_field, with_member, is_hex, of_hex_digit, of_hex};
ghost use Rattle.scan.specs.Internal.Words.{hex_value, is_whole};

use notation::Field;
use rules::Step;

// The largest number of a field.
#[tactic(auto, unfolding(notation::specs::Reading::most_of))]
pub fn most_of(field: Field) -> u64
    ensures most { result ≡ most_of (field_number field) }
    ensures fits { result < 4294967296 }
{
    match field {
        Field::Transactor | Field::Other => 15,
        Field::Message => 65535,
        Field::Value => 4294967295,
    }
}

// The step with a field set to n.
#[tactic(auto, unfolding(notation::specs::Reading::with_field, notation::specs::Reading::most_of))]
pub fn with_field(field: Field, n: u64, p: Step) -> Step
    requires { n ≤ most_of (field_number field) }
    ensures { result ≡ with_field (field_number field) n p }
{
    match field {
        Field::Transactor => Step {
            transactor: n as u8,
            ..p
        },
        Field::Other => Step {
            other: n as u8,
            ..p
        },
        Field::Message => Step {
            message: n as u16,
            ..p
        },
        Field::Value => Step {
            value: n as u32,
            ..p
        },
    }
}

// The group g (document 01: volume) with transactor t.
pub fn with_member(g: u16, t: u64) -> u16
    requires { t < 16 }
    ensures { result ≡ with_member g t }
{
    if (g >> t) % 2 == 1 {
        return g;
    }
    let bit = 1u16 << t;
    g + bit
}

#[tactic(auto, unfolding(notation::specs::Reading::is_hex, notation::specs::Reading::is_digit))]
fn is_hex(c: u8) -> bool
    ensures { result ≡ is_hex c }
{
    (b'0' <= c && c <= b'9') || (b'a' <= c && c <= b'f')
}

// Whether w has sixteen bytes, all of them hexadecimal digits.
fn is_whole(w: &[u8]) -> bool
    ensures { result ≡ is_whole w.now }
{
    w.len() == 16 && w.iter().all(|c| is_hex(*c))
}

fn digit(c: u8) -> u32
    requires { is_hex c ≡ true }
    ensures { (result ≡ of_hex_digit c) × (result < 16) }
{
    if c <= b'9' {
        return u32::from(c - b'0');
    }
    u32::from(c - b'a' + 10)
}

// The number that the n digits of w from at on give.
fn hex_number(w: &[u8], at: usize, n: usize) -> u32
    requires { (is_whole w.now ≡ true) × (at + n ≤ 16) × (n ≤ 8) }
    ensures { (result ≡ hex_value w.now at n) × (result < 16 ^ n) }
{
    let mut x: u32 = 0;
    for i in 0..n {
        x = x * 16 + digit(w[at + i]);
    }
    x
}

// The step that w gives; none unless it is sixteen digits.
pub fn whole(w: &[u8]) -> Option<Step>
    ensures { MatchOption result (is_whole w.now ≡ false) (λ q. (is_whole w.now ≡ true) × (q ≡ unpack_step (of_hex w.now))) }
{
    if !is_whole(w) {
        return None;
    }
    let kind = hex_number(w, 0, 1);
    let transactor = hex_number(w, 1, 1);
    let other = hex_number(w, 2, 1);
    let zero = hex_number(w, 3, 1);
    let message = hex_number(w, 4, 4);
    let value = hex_number(w, 8, 8);
    Some(Step {
        kind: kind as u8,
        transactor: transactor as u8,
        other: other as u8,
        zero: zero as u8,
        message: message as u16,
        value,
    })
}
