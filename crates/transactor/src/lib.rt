// One transactor's part of an image: kinds 5 to 10, falls and checkpoint, with the refusals that its bytes decide.
#![tactic(auto)]

mod news;
pub mod receipt;

ghost use Rattle.std.specs.Prelude.{◌≡◌, ◌≤◌, ◌<◌, length};
ghost use Rattle.maps.specs.Internal.Fitting.{Bounded};
ghost use Rattle.rules.specs.Layout.{base, transactor_bytes};
ghost use Rattle.rules.specs.State.{bare, own_history};
ghost use Rattle.rules.specs.Rules.{renewed, opening, carried, read_by, write_by, freeze_by, finish_by, checkpoint_by};
ghost use Rattle.rules.specs.Pack.{pack_transactor, unpack_transactor};
ghost use Rattle.rules.specs.Internal.Good.{GoodPart};
ghost use Rattle.rules.specs.Numbers.{kind_number, status_number, outcome_number};
ghost use Rattle.transactor.specs.Internal.Effects.{Acts, outcome_in, value_in, adopts, rollback_or28, rollback_unless_stable, act_by};

use image::layout::{BEHAVIOUR, CREATION, SAVED, STATE, TRANSACTOR, VALUE};
use lists::{limits, refusals};
use maps::DependenceMap;
use marks::History;
use rules::kinds::Kind;
use rules::outcomes::Outcome;
use rules::refusals::Refusal;
use rules::statuses::Status;

// An outcome, or the number of one, and the value read.
#[derive(Clone, Copy, Debug, PartialEq, Eq)]
pub struct Acted<O> {
    pub outcome: O,
    pub value: u32,
}

// An outcome alone.
pub fn outcome_of<O>(outcome: O) -> Acted<O>
    ensures { (result.outcome ≡ outcome) × (result.value ≡ 0) }
{
    Acted { outcome, value: 0 }
}

// The own history of transactor t.
pub fn own(part: &[u8], t: usize) -> History
    requires { (length part.now ≡ transactor_bytes base) × (t < base.transactors) }
    ensures { result ≡ own_history t (unpack_transactor base part.now) }
{
    packed_histories::load(part, STATE + marks::SIZE * t)
}

// Only a status, all else zero.
pub fn strip(part: &mut [u8], status: Status)
    requires { length part.old ≡ transactor_bytes base }
    ensures { part.new ≡ pack_transactor base (bare base (status_number status)) }
{
    part[0] = 64 * status.number();
    octets::store32(part, VALUE, 0);
    octets::store32(part, SAVED, 0);
    stored_maps::store_empty(part, STATE);
    stored_maps::store_empty(part, CREATION);
    stored_maps::store_empty(part, BEHAVIOUR);
}

// Idle, with h alone in the state map and the other maps empty.
pub fn renew(part: &mut [u8], t: usize, h: History, value: u32, saved: u32)
    requires { (length part.old ≡ transactor_bytes base) × (t < base.transactors) × (h.count ≤ base.places) }
    ensures { part.new ≡ pack_transactor base (renewed base t h value saved) }
{
    octets::clear(part, 0, TRANSACTOR);
    part[0] = 64 * Status::Idle as u8;
    octets::store32(part, VALUE, value);
    octets::store32(part, SAVED, saved);
    packed_histories::store(h, part, STATE + marks::SIZE * t);
}

// Idle, with the initial history, and a creation map.
pub fn open(part: &mut [u8], t: usize, value: u32, creation: DependenceMap)
    requires { (length part.old ≡ transactor_bytes base) × (t < base.transactors) × Bounded base.places creation }
    ensures { part.new ≡ pack_transactor base (opening base t value creation) }
{
    renew(part, t, History::INITIAL, value, 0);
    stored_maps::store(creation, part, CREATION);
}

// The initial history of child c joins the behaviour map.
pub fn adopt(part: &mut [u8], c: usize)
    requires { GoodPart part.old × (c < base.transactors) }
    ensures { part.new ≡ pack_transactor base (adopts base c (unpack_transactor base part.old)) }
{
    let one = DependenceMap::one(c, History::INITIAL);
    let joined = one.join(packed_maps::load(part, BEHAVIOUR));
    stored_maps::store(joined, part, BEHAVIOUR);
}

// Creation, behaviour and own history joined: what a message carries and a child is created from.
pub fn carry(part: &[u8], t: usize) -> DependenceMap
    requires { GoodPart part.now × (t < base.transactors) }
    ensures { result ≡ carried base t (unpack_transactor base part.now) }
{
    let h = own(part, t);
    packed_maps::joined(part, CREATION, BEHAVIOUR).join_entry(t, h)
}

// Falls: annihilated if never checkpointed, else the next incarnation; 28 at the last one.
pub fn rollback(part: &mut [u8], t: usize) -> Result<Acted<Outcome>, Refusal>
    requires { GoodPart part.old × (t < base.transactors) }
    ensures { Acts (rollback_or28 base t (unpack_transactor base part.old)) (outcome_in result) (value_in result) part.new }
{
    let h = own(part, t);
    if h.count == 0 {
        strip(part, Status::Annihilated);
        return Ok(outcome_of(Outcome::Vanished));
    }
    if h.incarnation == limits::LAST {
        return Err(Refusal::LastIncarnation);
    }
    let saved = octets::load32(part, SAVED);
    renew(part, t, h.rollback(), saved, saved);
    Ok(outcome_of(Outcome::FallenBack))
}

// Idle, behaviour map emptied.
fn become_idle(part: &mut [u8])
    requires { GoodPart part.old }
    ensures { part.new ≡ pack_transactor base (finish_by base (unpack_transactor base part.old)).transactor }
{
    part[0] = 64 * Status::Idle as u8;
    octets::clear(part, BEHAVIOUR, maps::SIZE);
}

fn read(part: &mut [u8]) -> Acted<Outcome>
    requires { GoodPart part.old }
    ensures { Acts (read_by base (unpack_transactor base part.old)) (outcome_number result.outcome) result.value part.new }
{
    stored_maps::join_into(part, STATE, BEHAVIOUR);
    let value = octets::load32(part, VALUE);
    Acted {
        outcome: Outcome::Done,
        value,
    }
}

fn write(part: &mut [u8], t: usize, value: u32) -> Acted<Outcome>
    requires { GoodPart part.old × (t < base.transactors) }
    ensures { Acts (write_by base t value (unpack_transactor base part.old)) (outcome_number result.outcome) result.value part.new }
{
    if own(part, t).stable {
        return outcome_of(Outcome::Held);
    }
    octets::store32(part, VALUE, value);
    stored_maps::join_into(part, BEHAVIOUR, STATE);
    outcome_of(Outcome::Done)
}

fn freeze(part: &mut [u8], t: usize) -> Acted<Outcome>
    requires { GoodPart part.old × (t < base.transactors) }
    ensures { Acts (freeze_by t (unpack_transactor base part.old)) (outcome_number result.outcome) result.value part.new }
{
    let h = own(part, t).stabilize();
    packed_histories::store(h, part, STATE + marks::SIZE * t);
    outcome_of(Outcome::Done)
}

// Fall and fail: a stable transactor is held, and a fall makes it idle; any other falls, or 28.
fn rollback_unless_stable(part: &mut [u8], t: usize, kind: Kind) -> Result<Acted<Outcome>, Refusal>
    requires { GoodPart part.old × (t < base.transactors) }
    ensures { Acts (rollback_unless_stable base (kind_number kind) t (unpack_transactor base part.old)) (outcome_in result) (value_in result) part.new }
{
    if !own(part, t).stable {
        return rollback(part, t);
    }
    if kind == Kind::Fall {
        become_idle(part);
    }
    Ok(outcome_of(Outcome::Held))
}

// Kinds 5 to 10: the last two fall and fail.
pub fn act(part: &mut [u8], kind: Kind, t: usize, value: u32) -> Result<Acted<Outcome>, Refusal>
    requires { GoodPart part.old × (t < base.transactors) × (5 ≤ kind_number kind) × (kind_number kind ≤ 10) }
    ensures { Acts (act_by base (kind_number kind) t value (unpack_transactor base part.old)) (outcome_in result) (value_in result) part.new }
{
    refusals::local(kind.number(), part[0] / 64)?;
    match kind {
        Kind::Read => Ok(read(part)),
        Kind::Write => Ok(write(part, t, value)),
        Kind::Freeze => Ok(freeze(part, t)),
        Kind::Finish => {
            become_idle(part);
            Ok(outcome_of(Outcome::Done))
        }
        _ => rollback_unless_stable(part, t, kind),
    }
}

// Saves the value, and takes the history of the next checkpoint.
pub fn checkpoint(part: &mut [u8], t: usize)
    requires { GoodPart part.old × (t < base.transactors) × ((own_history t (unpack_transactor base part.old)).count < base.places) }
    ensures { part.new ≡ pack_transactor base (checkpoint_by base t (unpack_transactor base part.old)) }
{
    let h = own(part, t).checkpoint();
    let value = octets::load32(part, VALUE);
    renew(part, t, h, value, value);
}
