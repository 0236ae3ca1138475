// What the rules refuse to go beyond, each with its refusal: what a session's limits can be, and what a number can hold.
ghost use Rattle.std.specs.Prelude.{◌≡◌, leb};
ghost use Rattle.octets.specs.Bytes.{◌and◌};
ghost use Rattle.rules.specs.Layout.{base, limits_of, in_range};

pub const TRANSACTORS: usize = 16;

// Messages waiting.
pub const MESSAGES: usize = 32;

// Checkpoints of one transactor.
pub const CHECKPOINTS: usize = 15;

// 27: the next message number stops here.
pub const LAST_NUMBER: u16 = 65535;

// 28: the largest incarnation number.
pub const LAST: u16 = 65535;

fn is_within(n: usize, most: usize) -> bool
    ensures { result ≡ leb 1 n and leb n most }
{
    (1..=most).contains(&n)
}

// Whether a session can have these limits; if not, 33.
#[tactic(auto, unfolding(rules::specs::Layout::in_range))]
pub fn in_range(transactors: usize, messages: usize, checkpoints: usize) -> bool
    ensures { result ≡ in_range base (limits_of transactors messages checkpoints) }
{
    is_within(transactors, TRANSACTORS)
        && is_within(messages, MESSAGES)
        && is_within(checkpoints, CHECKPOINTS)
}
