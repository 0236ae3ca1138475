// Lists of steps and of replies, and what ledger and engine ask of a step before they look at their own tables.
#![tactic(auto)]

pub mod fields;
pub mod groups;
pub mod limits;
pub mod packed;
pub mod refusals;

ghost use Rattle.std.specs.Prelude.{◌≡◌};
ghost use Rattle.rules.specs.Calls.{wrong_part};

// A step of a list, and its reply.
pub const STEP: usize = 8;

// A run's longest part.
pub const LONGEST: usize = 8192;

// Message numbers that it can give: one for each step at most.
pub const NUMBERS: usize = LONGEST / STEP;

// 17: the bytes from start up to end are no part of the list, no whole steps, or too many.
#[tactic(auto, unfolding(rules::specs::Calls::wrong_part))]
pub fn wrong_part(list: &[u8], start: usize, end: usize) -> bool
    ensures { result ≡ wrong_part list.now start end }
{
    end < start || list.len() < end || (end - start) % STEP != 0 || LONGEST < end - start
}
