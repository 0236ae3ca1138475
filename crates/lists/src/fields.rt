// 20: which fields of a step must be zero.
ghost use Rattle.std.specs.Prelude.{◌≡◌, not, eqb};
ghost use Rattle.octets.specs.Bytes.{◌or◌};
ghost use Rattle.rules.specs.Numbers.{kind_number};
ghost use Rattle.rules.specs.Refusals as refusals;
ghost use Rattle.rules.specs.Step.{send};

use rules::Step;
use rules::kinds::Kind;

// A field that is not used and is not zero.
fn stray(used: bool, field: u32) -> bool
    ensures { result ≡ not (used or eqb field 0) }
{
    !used && field != 0
}

fn uses_transactor(kind: Kind) -> bool
    ensures { result ≡ refusals.uses_transactor (kind_number kind) }
{
    match kind {
        Kind::Letter
        | Kind::New
        | Kind::Send
        | Kind::Read
        | Kind::Write
        | Kind::Freeze
        | Kind::Finish
        | Kind::Fall
        | Kind::Fail => true,
        Kind::Root | Kind::Receive | Kind::Lose | Kind::Sign => false,
    }
}

fn uses_other(kind: Kind) -> bool
    ensures { result ≡ eqb (kind_number kind) send }
{
    matches!(kind, Kind::Send)
}

fn uses_message(kind: Kind) -> bool
    ensures { result ≡ refusals.uses_message (kind_number kind) }
{
    matches!(kind, Kind::Receive | Kind::Lose | Kind::Sign)
}

fn uses_value(kind: Kind) -> bool
    ensures { result ≡ refusals.uses_value (kind_number kind) }
{
    matches!(
        kind,
        Kind::Root | Kind::Letter | Kind::New | Kind::Send | Kind::Write
    )
}

#[tactic(auto, unfolding(rules::specs::Refusals::malformed))]
pub fn malformed(p: Step) -> bool
    ensures { result ≡ refusals.malformed p }
{
    let Ok(kind) = Kind::try_from(p.kind) else {
        return true;
    };
    stray(uses_transactor(kind), p.transactor as u32)
        || stray(uses_other(kind), p.other as u32)
        || p.zero != 0
        || stray(uses_message(kind), p.message as u32)
        || stray(uses_value(kind), p.value)
}
