// The take ledger: begin, run, offer and show. A session lives in a lent image of IMAGE bytes, which each call takes as the last one left it.
#![tactic(auto)]

ghost use Rattle.std.specs.Prelude.{◌≡◌, ◌*◌, ◌/◌, length};
ghost use Rattle.octets.specs.Bytes.{zeros};
ghost use Rattle.rules.specs.Layout.{base, limits_of, image_bytes};
ghost use Rattle.rules.specs.Step.{step_bytes};
ghost use Rattle.rules.specs.Internal.Good.{Good};
ghost use Rattle.rules.specs.Numbers.{refusal_in, answer_in};
ghost use Rattle.rules.specs.Calls.{ran_image, ran_replies, show_refusal};
ghost use Rattle.ledger.specs.Internal.Shown.{shown_at, place_in};
ghost use Rattle.rules.specs.Promises.{BeginPromise, RunPromise, OfferPromise, ShowPromise};

use image::layout::{
    FIRST_MESSAGE, FIRST_TRANSACTOR, IMAGE, MESSAGE, MESSAGES, TRANSACTOR, TRANSACTORS, map_at,
};
use image::{limits, messages};
use lists::{STEP, packed};
use rules::refusals::Refusal;
use rules::statuses::Status;

// ---- begin

// Begins a fresh session that opens so many transactors, keeps so many messages waiting and checkpoints a transactor so often. Refused as
// 16 or 33, with no byte changed.
pub fn begin(
    image: &mut [u8],
    transactors: usize,
    messages: usize,
    checkpoints: usize,
) -> Result<(), Refusal>
    ensures { BeginPromise base (limits_of transactors messages checkpoints) image.old (refusal_in result) image.new }
{
    if image.len() != IMAGE {
        return Err(Refusal::WrongLength);
    }
    if !lists::limits::in_range(transactors, messages, checkpoints) {
        return Err(Refusal::OutOfRange);
    }
    refresh(image);
    limits::store(image, transactors as u8, messages as u8, checkpoints as u8);
    Ok(())
}

// Nothing opened, nothing sent, no limits: in every entry of every transactor's maps stands the initial history's constant, not present.
fn refresh(image: &mut [u8])
    requires { length image.old ≡ image_bytes base }
    ensures { image.new ≡ zeros (image_bytes base) }
{
    octets::clear(image, 0, FIRST_TRANSACTOR);
    for t in 0..TRANSACTORS {
        let at = FIRST_TRANSACTOR + TRANSACTOR * t;
        let end = at + TRANSACTOR;
        transactor::strip(&mut image[at..end], Status::Unused);
    }
    octets::clear(image, FIRST_MESSAGE, MESSAGE * MESSAGES);
}

// ---- run

// Runs a list of whole steps.
fn run_steps(image: &mut [u8], list: &[u8], replies: &mut [u8])
    requires { Good image.old × (length replies.old ≡ length list.now) × (step_bytes * (length list.now / step_bytes) ≡ length list.now) }
    ensures { (image.new ≡ ran_image base image.old list.now) × (replies.new ≡ ran_replies base image.old list.now) }
{
    // counted once, then carried from step to step
    let mut waiting = messages::waiting(image);
    for i in 0..list.len() / STEP {
        let p = packed::decode(list, STEP * i);
        let r = steps::step(image, &mut waiting, p);
        packed::encode(replies, STEP * i, r);
    }
}

// Runs the steps of the list from start up to end, and writes a reply for each. Refused as 16, 17, 18 or 19, with no byte changed.
pub fn run(
    image: &mut [u8],
    list: &[u8],
    start: usize,
    end: usize,
    replies: &mut [u8],
) -> Result<(), Refusal>
    ensures { RunPromise base image.old list.now start end replies.old (refusal_in result) image.new replies.new }
{
    if image.len() != IMAGE {
        return Err(Refusal::WrongLength);
    }
    if lists::wrong_part(list, start, end) {
        return Err(Refusal::WrongPart);
    }
    if replies.len() != end - start {
        return Err(Refusal::WrongRoom);
    }
    if !form::formed(image) {
        return Err(Refusal::IllFormed);
    }
    run_steps(image, &list[start..end], replies);
    Ok(())
}

// ---- offer

// The waiting message addressed to the transactor with the lowest number: the first, since numbers rise from place to place. Or
// nothing, exactly if there is none. Refused as 16, 19, 21 or 22.
pub fn offer(image: &[u8], transactor: usize) -> Result<Option<u16>, Refusal>
    ensures { OfferPromise base image.now transactor (refusal_in result) (answer_in result) }
{
    form::check_query(image, transactor)?;
    let n = messages::waiting(image);
    match messages::place_to(image, n, transactor) {
        Some(k) => Ok(Some(messages::number_of(image, k))),
        None => Ok(None),
    }
}

// ---- show

// Where a waiting message's map stands. Refused as 16, 19 or 24.
pub fn shown_at(image: &[u8], number: usize) -> Result<usize, Refusal>
    ensures { (place_in result ≡ shown_at base image.now number) × (refusal_in result ≡ show_refusal base image.now number) }
{
    form::check_image(image)?;
    let n = messages::waiting(image);
    match messages::place_numbered(image, n, number) {
        Some(k) => Ok(map_at(k)),
        None => Err(Refusal::NotWaiting),
    }
}

// The bytes of a map: those of a history, for each of its entries.
const MAP: usize = marks::SIZE * maps::ENTRIES;

// The bytes of the image that hold a waiting message's map. The lent number takes the refusal, 16, 19 or 24, or 0; refused, an
// empty part.
pub fn show<'a>(image: &'a [u8], number: usize, refusal: &mut u8) -> &'a [u8]
    ensures { ShowPromise base image.now number refusal.new result.now }
{
    match shown_at(image, number) {
        Ok(at) => {
            *refusal = 0;
            let end = at + MAP;
            &image[at..end]
        }
        Err(r) => {
            *refusal = r.number();
            &image[..0]
        }
    }
}
