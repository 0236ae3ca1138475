// Which history decides: two packed histories compared; what the receipt of a waiting message would do, and whose histories decide it.
#![tactic(auto)]

pub mod receipt;

ghost use Rattle.std.specs.Prelude.{◌≡◌, length};
ghost use Rattle.marks.specs.Packed.{width, places, history_size};
ghost use Rattle.rules.specs.Numbers.{refusal_in};
ghost use Rattle.decisive.specs.Compared.{is_history, compare_refusal, compared_in, ComparePromise};

use marks::{PLACES, SIZE};
use rules::refusals::Refusal;

// The comparison's answer in numbers, as it goes out to C: the relation's; which of the two a join keeps, 0 the left one, 1 the right one.
#[repr(C)]
#[derive(Clone, Copy, Debug, PartialEq, Eq)]
pub struct Compared {
    pub relation: u8,
    pub newer: u8,
}

// What a receipt would reply: its outcome, 0 done, 2 dropped, 3 fallen back, 4 vanished; and the first transactor whose histories decide it:
// dropped, the message's is superseded by the receiver's; fallen back or vanished, the receiver's by the message's. Done: 0. Two numbers and
// no enum: it goes out to C as it stands.
#[repr(C)]
#[derive(Clone, Copy, Debug, PartialEq, Eq)]
pub struct Decision {
    pub outcome: usize,
    pub transactor: usize,
}

// Whether the bytes are a history, present and well-formed.
fn is_history(s: &[u8]) -> bool
    requires { length s.now ≡ history_size width places }
    ensures { result ≡ is_history s.now }
{
    packed_histories::present(s, 0)
        && packed_histories::formed(s, 0, PLACES as u8, &packed_histories::ramp())
}

// Whether they can be compared: refused as 16 or 19 if not.
fn check(left: &[u8], right: &[u8]) -> Result<(), Refusal>
    ensures { refusal_in result ≡ compare_refusal left.now right.now }
{
    if left.len() != SIZE || right.len() != SIZE {
        return Err(Refusal::WrongLength);
    }
    if !is_history(left) || !is_history(right) {
        return Err(Refusal::IllFormed);
    }
    Ok(())
}

// Two packed histories of one transactor compared; refused as 16 where one is not as long as a history, 19 where one is absent or
// ill-formed.
pub fn compare(left: &[u8], right: &[u8]) -> Result<Compared, Refusal>
    ensures { ComparePromise left.now right.now (refusal_in result) (compared_in result) }
{
    check(left, right)?;
    let a = packed_histories::load(left, 0);
    let b = packed_histories::load(right, 0);
    Ok(Compared {
        relation: a.compare(b).number(),
        newer: u8::from(a.older(b)),
    })
}
