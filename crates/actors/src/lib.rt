// For whom a step acts: whoever gives rights asks this before the step is run. The image is only read.
#![tactic(auto)]

ghost use Rattle.std.specs.Prelude.{◌≡◌, length};
ghost use Rattle.rules.specs.Layout.{base, image_bytes};
ghost use Rattle.rules.specs.Pack.{unpack};
ghost use Rattle.rules.specs.Numbers.{refusal_in};
ghost use Rattle.actors.specs.Actor.{receiver_of, actor_of, actor_in, ActorPromise};

use image::layout::IMAGE;
use image::messages;
use lists::{STEP, fields, packed};
use rules::Step;
use rules::kinds::Kind;
use rules::refusals::Refusal;

// For whom a step acts.
#[derive(Clone, Copy, Debug, PartialEq, Eq)]
pub enum Actor {
    // The house, from outside: root, letter and lose are no transactor's.
    House,
    // One transactor (document 01: take).
    One(u8),
    // The transactors of a group (document 01: volume).
    Group(u16),
}

// The addressee of the message with this number, if it waits.
fn receiver(image: &[u8], number: u16) -> Option<Actor>
    requires { length image.now ≡ image_bytes base }
    ensures { result ≡ receiver_of (unpack base image.now) number }
{
    let k = messages::place_of(image, messages::waiting(image), number)?;
    Some(Actor::One(messages::addressee(image, k) as u8))
}

// No one if no step does it, or if the message that it receives does not wait.
#[tactic(auto, unfolding(crate::specs::Actor::actor_of, rules::specs::Refusals::malformed))]
fn actor_of(image: &[u8], p: Step) -> Option<Actor>
    requires { length image.now ≡ image_bytes base }
    ensures { result ≡ actor_of (unpack base image.now) p }
{
    let kind = Kind::try_from(p.kind).ok()?;
    if fields::malformed(p) {
        return None;
    }
    match kind {
        Kind::Receive => receiver(image, p.message),
        Kind::Sign => Some(Actor::Group(p.message)),
        Kind::Root | Kind::Letter | Kind::Lose => Some(Actor::House),
        Kind::New
        | Kind::Send
        | Kind::Read
        | Kind::Write
        | Kind::Freeze
        | Kind::Finish
        | Kind::Fall
        | Kind::Fail => Some(Actor::One(p.transactor)),
    }
}

// For whom the step acts on this image, if for someone. Refused as 16, 17 unless the step has eight bytes, or 19.
pub fn for_whom(image: &[u8], step: &[u8]) -> Result<Option<Actor>, Refusal>
    ensures { ActorPromise base image.now step.now (refusal_in result) (actor_in result) }
{
    if image.len() != IMAGE {
        return Err(Refusal::WrongLength);
    }
    if step.len() != STEP {
        return Err(Refusal::WrongPart);
    }
    if !form::formed(image) {
        return Err(Refusal::IllFormed);
    }
    Ok(actor_of(image, packed::decode(step, 0)))
}
