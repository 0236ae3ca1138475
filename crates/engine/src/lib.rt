// The engine without maps (document 02, W11): the replies to a list of steps from a fresh session, by tables and by walks back over the
// list.
#![tactic(auto)]

ghost use Rattle.std.specs.Prelude.{◌≡◌, false};
ghost use Rattle.rules.specs.Layout.{base, limits_of};
ghost use Rattle.rules.specs.Numbers.{refusal_in};
ghost use Rattle.rules.specs.Step as kinds;
ghost use Rattle.rules.specs.Refusals.{malformed};
ghost use Rattle.rules.specs.Calls.{fresh_image, ran_replies};
ghost use Rattle.engine_chains.specs.Internal.Walk.{Walkable};
ghost use Rattle.engine_tables.specs.Internal.Turns.{turn_in, group_turn_in};
ghost use Rattle.engine.specs.Play.{play_answer, play_replies};
ghost use Rattle.engine.specs.Internal.Advance.{Advances, AdvancesGroup, Ahead, Playable};

use engine_tables::register::Register;
use engine_tables::table::Row;
use engine_tables::turns::{GroupTurn, Operands, Turn};
use engine_tables::{effects, guards, places, turns};
use lists::{STEP, fields, limits, packed};
use rules::Step;
use rules::kinds::Kind;
use rules::refusals::Refusal;

// A receipt: the walk is done only where the table would not refuse it otherwise, and for no letter, which rests on nothing.
fn receive(list: &[u8], replies: &[u8], i: usize, x: Operands, p: Step) -> Result<Turn, Refusal>
    requires { Ahead list.now replies.now i x p × (malformed p ≡ false) × (p.kind ≡ kinds.receive) }
    ensures { Advances list.now replies.now i x p (turn_in x result) }
{
    let slot = x.slot;
    guards::receipt(slot, x.row)?;
    if slot.letter {
        return turns::receive(x, p, false, false);
    }
    let c = engine_walk::receipt(
        list,
        replies,
        i,
        usize::from(p.message),
        usize::from(slot.addressee),
    );
    turns::receive(x, p, c.dropped, c.rolls)
}

// One step, of any kind but a signing.
fn advance(list: &[u8], replies: &[u8], i: usize, x: Operands, p: Step) -> Result<Turn, Refusal>
    requires { Ahead list.now replies.now i x p × (p.kind ≡ kinds.sign → ⊥) }
    ensures { Advances list.now replies.now i x p (turn_in x result) }
{
    if fields::malformed(p) {
        return Err(Refusal::Malformed);
    }
    match Kind::try_from(p.kind) {
        Ok(Kind::Root) => turns::root(x, p),
        Ok(Kind::Letter) => turns::letter(x, p),
        Ok(Kind::Receive) => receive(list, replies, i, x, p),
        Ok(Kind::New) => turns::new(x, p),
        Ok(Kind::Send) => turns::send(x, p),
        Ok(Kind::Lose) => turns::lose(x, p),
        Ok(_) => turns::local(x, p),
        Err(_) => Err(Refusal::Malformed),
    }
}

// A signing: the walk is done only where the table does not refuse it, and every named transactor is stable.
fn sign(
    list: &[u8],
    replies: &[u8],
    i: usize,
    x: Register,
    rows: [Row; 16],
    p: Step,
) -> Result<GroupTurn, Refusal>
    requires { Walkable list.now replies.now i × (p.kind ≡ kinds.sign) }
    ensures { AdvancesGroup list.now replies.now i x rows p (group_turn_in rows result) }
{
    if fields::malformed(p) {
        return Err(Refusal::Malformed);
    }
    let group = p.message;
    guards::group(x, rows, group)?;
    if guards::unstable(rows, group) {
        return Ok(turns::sign(x, rows, p, false));
    }
    Ok(turns::sign(x, rows, p, engine_walk::grounded(list, replies, i, group)))
}

// Plays a list of whole steps: the register by value, the rows and the slots in arrays of which a step looks at one place, but for a
// signing; the replies so far in their buffer, where the walks read them.
fn play_steps(list: &[u8], transactors: u8, messages: u8, checkpoints: u8, replies: &mut [u8])
    requires { Playable (limits_of transactors messages checkpoints) list.now replies.old }
    ensures { replies.new ≡ ran_replies base (fresh_image base (limits_of transactors messages checkpoints)) list.now }
{
    let n = list.len() / STEP;
    let mut x = Register::fresh(transactors, messages, checkpoints);
    let mut rows = [effects::UNUSED; 16];
    let mut slots = [turns::EMPTY; places::PLACES];
    for i in 0..n {
        let from = STEP * i;
        let p = packed::decode(list, from);
        if p.kind == Kind::Sign.number() {
            let u = turns::group_played(rows, sign(list, replies, i, x, rows, p));
            rows = u.rows;
            packed::encode(replies, from, u.reply);
        } else {
            let k = places::place(x.next, p);
            let slot = slots[k];
            let t = places::subject(p, slot);
            let o = Operands::of(x, t, rows[t], slot);
            let u = turns::played(o, advance(list, replies, i, o, p));
            let left = u.operands;
            x = left.register;
            rows[left.at] = left.row;
            slots[k] = left.slot;
            packed::encode(replies, from, u.reply);
        }
    }
}

// The replies to the steps of the list, from a fresh session that opens so many transactors, keeps so many messages waiting and
// checkpoints a transactor so often; or 17, 18, 33 with no byte changed.
#[tactic(auto, unfolding(crate::specs::Play::play_answer, crate::specs::Play::play_replies))]
pub fn play(
    list: &[u8],
    replies: &mut [u8],
    transactors: usize,
    messages: usize,
    checkpoints: usize,
) -> Result<(), Refusal>
    ensures { (refusal_in result ≡ play_answer base (limits_of transactors messages checkpoints) list.now replies.old)
        × (replies.new ≡ play_replies base (limits_of transactors messages checkpoints) list.now replies.old) }
{
    let n = list.len();
    if lists::wrong_part(list, 0, n) {
        return Err(Refusal::WrongPart);
    }
    if replies.len() != n {
        return Err(Refusal::WrongRoom);
    }
    if !limits::in_range(transactors, messages, checkpoints) {
        return Err(Refusal::OutOfRange);
    }
    play_steps(
        list,
        transactors as u8,
        messages as u8,
        checkpoints as u8,
        replies,
    );
    Ok(())
}
