// The steps on an image, kind by kind: each refuses in the table's order, or replies and changes the image.
#![tactic(auto)]

ghost use Rattle.std.specs.Prelude.{◌≡◌, false, ◌≤◌, ◌<◌, length};
ghost use Rattle.maps.specs.Internal.Fitting.{Bounded};
ghost use Rattle.rules.specs.Layout.{base, image_bytes};
ghost use Rattle.rules.specs.Step.{root, letter, receive, new, send, lose, sign};
ghost use Rattle.rules.specs.Refusals.{malformed};
ghost use Rattle.rules.specs.Rules.{answer};
ghost use Rattle.rules.specs.Pack.{waiting_in, unpack};
ghost use Rattle.rules.specs.Internal.Well.{StepOk};
ghost use Rattle.rules.specs.Internal.Good.{Good};
ghost use Rattle.rules.specs.Numbers.{kind_number, refusal_in};
ghost use Rattle.steps.specs.Internal.Stepped.{Stepped, Asked, Counted, reply_of};
ghost use Rattle.rules.specs.Internal.Guards.{busy_in, room_in};
ghost use Rattle.transactor.specs.Internal.Effects.{open_bytes};

use image::formed::Formed;
use image::layout::{FIRST_TRANSACTOR, OPENED, TRANSACTOR};
use image::{head, limits, messages};
use lists::{fields, refusals};
use maps::DependenceMap;
use rules::kinds::Kind;
use rules::outcomes::Outcome;
use rules::refusals::Refusal;
use rules::{Reply, Step};
use transactor::receipt;

// A reply that is an outcome or a refusal alone.
fn answered(number: u8) -> Reply
    ensures { result ≡ answer number 0 0 0 }
{
    Reply {
        outcome: number,
        transactor: 0,
        message: 0,
        value: 0,
    }
}

// A reply that names what was acted on or made.
fn done(transactor: u8, message: u16) -> Reply
    ensures { result ≡ answer 0 transactor message 0 }
{
    Reply {
        outcome: Outcome::Done.number(),
        transactor,
        message,
        value: 0,
    }
}

// ---- 21 to 23, 26, 27

fn check_busy(image: &[u8], t: u8) -> Result<(), Refusal>
    requires { (length image.now ≡ image_bytes base) × (t < base.transactors) }
    ensures { refusal_in result ≡ busy_in (unpack base image.now) t }
{
    let status = head::status(image, t as usize).number();
    refusals::busy(head::opened(image), t, status)
}

fn check_room(image: &[u8], n: usize) -> Result<(), Refusal>
    requires { (length image.now ≡ image_bytes base) × (n ≡ waiting_in base image.now) }
    ensures { refusal_in result ≡ room_in (unpack base image.now) }
{
    refusals::room(limits::messages(image) as usize, n, head::next(image))
}

// ---- the kinds; the four that add or take away a message are lent the number of those that wait

// Opens transactor c, the next one.
fn open(image: &mut [u8], c: u8, value: u32, creation: DependenceMap)
    requires { (length image.old ≡ image_bytes base) × (c < base.transactors) × Bounded base.places creation }
    ensures { image.new ≡ open_bytes base image.old c value creation }
{
    let t = c as usize;
    let at = FIRST_TRANSACTOR + TRANSACTOR * t;
    let end = at + TRANSACTOR;
    transactor::open(&mut image[at..end], t, value, creation);
    image[OPENED] = c + 1;
}

fn root(image: &mut [u8], p: Step) -> Result<Reply, Refusal>
    requires { Asked root image.old p }
    ensures { Stepped image.old p (reply_of result) image.new }
{
    let c = head::opened(image);
    if limits::transactors(image) <= c {
        return Err(Refusal::AllOpened);
    }
    open(image, c, p.value, DependenceMap::empty());
    Ok(done(c, 0))
}

fn letter(image: &mut [u8], waiting: &mut usize, p: Step) -> Result<Reply, Refusal>
    requires { Asked letter image.old p × Counted waiting.old image.old }
    ensures { Stepped image.old p (reply_of result) image.new × Counted waiting.new image.new }
{
    let to = p.transactor;
    if head::opened(image) <= to {
        return Err(Refusal::Unopened);
    }
    let n = *waiting;
    check_room(image, n)?;
    let number = head::next(image);
    messages::append_empty(image, n, to, p.value);
    *waiting = n + 1;
    Ok(done(to, number))
}

fn receive(image: &mut [u8], waiting: &mut usize, p: Step) -> Result<Reply, Refusal>
    requires { Asked receive image.old p × Counted waiting.old image.old }
    ensures { Stepped image.old p (reply_of result) image.new × Counted waiting.new image.new }
{
    let n = *waiting;
    let Some(k) = messages::place_of(image, n, p.message) else {
        return Err(Refusal::NotWaiting);
    };
    let t = messages::addressee(image, k);
    refusals::receiver(head::status(image, t).number())?;
    let content = messages::content(image, k);
    // refused as 28 or 31, the message stays
    let outcome = receipt::accept(image, t, k)?.outcome;
    messages::remove(image, k, n);
    *waiting = n - 1;
    let value = if outcome == Outcome::Done { content } else { 0 };
    Ok(Reply {
        outcome: outcome.number(),
        transactor: t as u8,
        message: p.message,
        value,
    })
}

fn new(image: &mut [u8], p: Step) -> Result<Reply, Refusal>
    requires { Asked new image.old p }
    ensures { Stepped image.old p (reply_of result) image.new }
{
    let t = p.transactor as usize;
    check_busy(image, p.transactor)?;
    let child = head::opened(image);
    if limits::transactors(image) <= child {
        return Err(Refusal::AllOpened);
    }
    let at = FIRST_TRANSACTOR + TRANSACTOR * t;
    let end = at + TRANSACTOR;
    let creation = transactor::carry(&image[at..end], t);
    transactor::adopt(&mut image[at..end], child as usize);
    open(image, child, p.value, creation);
    Ok(done(child, 0))
}

fn send(image: &mut [u8], waiting: &mut usize, p: Step) -> Result<Reply, Refusal>
    requires { Asked send image.old p × Counted waiting.old image.old }
    ensures { Stepped image.old p (reply_of result) image.new × Counted waiting.new image.new }
{
    let t = p.transactor as usize;
    let to = p.other;
    if head::opened(image) <= to {
        return Err(Refusal::Unopened);
    }
    check_busy(image, p.transactor)?;
    let n = *waiting;
    check_room(image, n)?;
    let number = head::next(image);
    messages::append(image, n, to, p.value, t);
    *waiting = n + 1;
    Ok(done(p.transactor, number))
}

// Kinds 5 to 10.
fn local(image: &mut [u8], p: Step, kind: Kind) -> Result<Reply, Refusal>
    requires { Good image.old × StepOk p × (malformed p ≡ false) × (kind_number kind ≡ p.kind) × (5 ≤ p.kind) × (p.kind ≤ 10) }
    ensures { Stepped image.old p (reply_of result) image.new }
{
    let t = p.transactor as usize;
    if (head::opened(image) as usize) <= t {
        return Err(Refusal::Unopened);
    }
    let at = FIRST_TRANSACTOR + TRANSACTOR * t;
    let end = at + TRANSACTOR;
    let acted = transactor::act(&mut image[at..end], kind, t, p.value)?;
    Ok(Reply {
        outcome: acted.outcome.number(),
        transactor: p.transactor,
        message: 0,
        value: acted.value,
    })
}

fn lose(image: &mut [u8], waiting: &mut usize, p: Step) -> Result<Reply, Refusal>
    requires { Asked lose image.old p × Counted waiting.old image.old }
    ensures { Stepped image.old p (reply_of result) image.new × Counted waiting.new image.new }
{
    let n = *waiting;
    let Some(k) = messages::place_of(image, n, p.message) else {
        return Err(Refusal::NotWaiting);
    };
    messages::remove(image, k, n);
    *waiting = n - 1;
    Ok(done(0, p.message))
}

fn sign(image: &mut [u8], p: Step) -> Result<Reply, Refusal>
    requires { Asked sign image.old p }
    ensures { Stepped image.old p (reply_of result) image.new }
{
    let group = p.message;
    let formed = Formed { bytes: image };
    group::check(&formed, group)?;
    if !group::ready(&formed, group) {
        return Ok(answered(Outcome::NotReady.number()));
    }
    group::checkpoint(image, group);
    Ok(answered(Outcome::Done.number()))
}

// A step that is well-formed, of any kind.
fn tried(image: &mut [u8], waiting: &mut usize, p: Step) -> Result<Reply, Refusal>
    requires { Good image.old × StepOk p × Counted waiting.old image.old }
    ensures { Stepped image.old p (reply_of result) image.new × Counted waiting.new image.new }
{
    if fields::malformed(p) {
        return Err(Refusal::Malformed);
    }
    let Ok(kind) = Kind::try_from(p.kind) else {
        return Err(Refusal::Malformed);
    };
    match kind {
        Kind::Root => root(image, p),
        Kind::Letter => letter(image, waiting, p),
        Kind::Receive => receive(image, waiting, p),
        Kind::New => new(image, p),
        Kind::Send => send(image, waiting, p),
        Kind::Read | Kind::Write | Kind::Freeze | Kind::Finish | Kind::Fall | Kind::Fail => {
            local(image, p, kind)
        }
        Kind::Lose => lose(image, waiting, p),
        Kind::Sign => sign(image, p),
    }
}

// One step, of any kind; the lent number is how many messages wait, before and after it. A refusal is told by its number alone.
pub fn step(image: &mut [u8], waiting: &mut usize, p: Step) -> Reply
    requires { Good image.old × StepOk p × Counted waiting.old image.old }
    ensures { Stepped image.old p result image.new × Counted waiting.new image.new }
{
    match tried(image, waiting, p) {
        Ok(reply) => reply,
        Err(refusal) => answered(refusal.number()),
    }
}
