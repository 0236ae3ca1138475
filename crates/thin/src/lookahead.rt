// What the steps after a place in the list do to the behaviour maps.
ghost use Rattle.std.specs.Prelude.{◌≡◌, ◌<◌, false, get_or};
ghost use Rattle.octets.specs.Bytes.{◌or◌};
ghost use Rattle.rules.specs.Layout.{base};
ghost use Rattle.rules.specs.Refusals as refusals;
ghost use Rattle.thin.specs.Thin as definitions;
ghost use Rattle.thin.specs.Internal.Gather.{Says, with, kept_by};

use lists::groups::is_named;
use lists::limits::TRANSACTORS;
use lists::refusals::is_refusal;
use rules::Step;
use rules::kinds::Kind;
use rules::outcomes::Outcome;

// For each transactor, whether the next step that touches it empties its map. Flags and no word: an entry is set by the transactor's number.
#[derive(Clone, Copy)]
pub struct Lookahead {
    pub emptied: [bool; 16],
}

fn acts(kind: u8) -> bool
    ensures { result ≡ refusals.acts kind }
{
    Kind::New.number() <= kind && kind <= Kind::Fail.number()
}

// Whether a step that touches a transactor empties its map.
#[tactic(auto, unfolding(crate::specs::Thin::empties))]
fn empties(p: Step, outcome: u8) -> bool
    ensures { result ≡ definitions.empties p outcome }
{
    match Kind::try_from(p.kind) {
        Ok(Kind::Finish | Kind::Fall | Kind::Sign) => true,
        Ok(Kind::Fail) => outcome != Outcome::Held.number(),
        _ => false,
    }
}

impl Lookahead {
    // After the last step.
    pub const NONE: Lookahead = Lookahead {
        emptied: [false; 16],
    };

    // A signing empties the map of each transactor that the group names.
    fn with_group(mut self, group: u16) -> Lookahead
        ensures { Says (λ t. refusals.named group t or get_or self.emptied t false) result.emptied }
    {
        for t in 0..TRANSACTORS {
            if is_named(group, t) {
                self.emptied[t] = true;
            }
        }
        self
    }

    // The same with p in front.
    pub fn with(mut self, p: Step, outcome: u8) -> Lookahead
        requires { p.transactor < base.transactors }
        ensures { Says (with p outcome self.emptied) result.emptied }
    {
        if is_refusal(outcome) {
            return self;
        }
        if acts(p.kind) {
            self.emptied[usize::from(p.transactor)] = empties(p, outcome);
            return self;
        }
        if p.kind != Kind::Sign.number() {
            return self;
        }
        if outcome != Outcome::Done.number() {
            return self;
        }
        self.with_group(p.message)
    }

    // Whether p, in front of these steps, is kept.
    #[tactic(auto, unfolding(crate::specs::Internal::Gather::kept_by, crate::specs::Thin::not_refused))]
    pub fn keeps(self, p: Step, outcome: u8) -> bool
        requires { p.transactor < base.transactors }
        ensures { result ≡ kept_by p outcome self.emptied }
    {
        !is_refusal(outcome)
            && !(p.kind == Kind::Read.number() && self.emptied[usize::from(p.transactor)])
    }
}
