// A group (document 01: a volume) as a word: bit t names transactor t. And a group for each transactor.
ghost use Rattle.std.specs.Prelude.{◌≡◌, ◌<◌, leb};
ghost use Rattle.rules.specs.Layout.{base};
ghost use Rattle.rules.specs.Refusals.{named, any_named};
ghost use Rattle.rules.specs.Internal.Closure.{inside};

use crate::limits::TRANSACTORS;

// A group for each transactor, and one more: in `needs` whom each needs, and who can be in a group that is ready; in `grounds` who rests on each.
#[derive(Clone, Copy)]
pub struct Needs {
    pub need: [u16; 16],
    pub able: u16,
}

// Whether the group names transactor t.
#[tactic(auto, unfolding(rules::specs::Refusals::named))]
pub fn is_named(group: u16, t: usize) -> bool
    requires { t < base.transactors }
    ensures { result ≡ named group t }
{
    (group >> t) % 2 == 1
}

// Whether the group names a transactor from number n on.
pub fn names_from(group: u16, n: usize) -> bool
    ensures { result ≡ any_named group (leb n) }
{
    n < TRANSACTORS && group >> n != 0
}

// Whether the group names no one but members.
pub fn is_inside(group: u16, members: u16) -> bool
    ensures { result ≡ inside group members }
{
    group & members == group
}
