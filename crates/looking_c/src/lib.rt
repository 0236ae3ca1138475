// The calls for a program in another language that looks on, as include/looking.h declares them: a slice is a pointer and a length, a lent
// number a pointer. None has a precondition. They stand apart from ledger_c: a second caller would keep the ledger's form test and
// receipts from being compiled in one piece.
#![tactic(auto)]

ghost use Rattle.std.specs.Prelude.{◌≡◌, ◌≤◌, eqb, MatchResult};
ghost use Rattle.rules.specs.Layout.{base};
ghost use Rattle.fields.specs.Field.{field_of};
ghost use Rattle.decisive.specs.Compared.{ComparePromise};
ghost use Rattle.decisive.specs.Decision.{DecisionPromise};
ghost use Rattle.rules.specs.Numbers.{refusal_in};
ghost use Rattle.rules.specs.Promises.{IndependentPromise};

use decisive::{Compared, Decision, receipt};
use fields::Field;
use rules::refusals::Refusal;

// What a call answers; the lent number takes its refusal, or 0; refused, none. As in ledger_c: the two interfaces share no crate.
fn told<A: Copy>(call: Result<A, Refusal>, refusal: &mut u8, none: A) -> A
    ensures number { refusal.new ≡ refusal_in call }
    ensures answer { MatchResult call (λ a. result ≡ a) (λ r. result ≡ none) }
{
    match call {
        Ok(answer) => {
            *refusal = 0;
            answer
        }
        Err(r) => {
            *refusal = r.number();
            none
        }
    }
}

// What the receipt of the waiting message would reply now, and the first transactor whose histories decide it. The lent number takes the
// refusal, 16, 19, or what the receipt would get, 24, 22, 23, 31 or 28, or 0; refused, both numbers are 0.
#[unsafe(no_mangle)]
pub extern "C" fn looking_decision(image: &[u8], number: usize, refusal: &mut u8) -> Decision
    ensures { DecisionPromise base image.now number refusal.new result }
{
    let none = Decision {
        outcome: 0,
        transactor: 0,
    };
    told(receipt::decide(image, number), refusal, none)
}

// Two packed histories of one transactor compared. The lent number takes the refusal, 16 where one is not as long as a history, 19 where one
// is absent or ill-formed, or 0; refused, both numbers are 0.
#[unsafe(no_mangle)]
pub extern "C" fn looking_compare(left: &[u8], right: &[u8], refusal: &mut u8) -> Compared
    ensures { ComparePromise left.now right.now refusal.new result }
{
    let none = Compared {
        relation: 0,
        newer: 0,
    };
    told(decisive::compare(left, right), refusal, none)
}

// The field that byte at of an image belongs to; past the image, all are 0.
#[unsafe(no_mangle)]
pub extern "C" fn looking_field(at: usize) -> Field
    ensures { result ≡ field_of base at }
{
    fields::field_at(at)
}

// 1 exactly if the two packed steps are independent on the image, so that both orders leave the same image and give each step the same reply;
// else 0. The lent number takes the refusal, 16, 17 where a step has not eight bytes, 19, or 0; refused, 0.
#[unsafe(no_mangle)]
pub extern "C" fn looking_independent(
    image: &[u8],
    first: &[u8],
    second: &[u8],
    refusal: &mut u8,
) -> u8
    ensures { (result ≤ 1) × IndependentPromise base image.now first.now second.now refusal.new (eqb result 1) }
{
    u8::from(told(
        independence::independent(image, first, second),
        refusal,
        false,
    ))
}
