// What is first asked of an image: how many transactors are opened, the next message number, a transactor's status, and 21, 22 of a query.
ghost use Rattle.std.specs.Prelude.{◌≡◌, ◌≤◌, ◌<◌, length};
ghost use Rattle.rules.specs.Layout.{base, image_bytes};
ghost use Rattle.rules.specs.State.{transactor_at};
ghost use Rattle.rules.specs.Pack.{unpack};
ghost use Rattle.rules.specs.Internal.Guards.{acting_refusal};
ghost use Rattle.rules.specs.Numbers.{status_number, refusal_in};

use crate::layout::{FIRST_TRANSACTOR, NEXT, OPENED, TRANSACTOR};
use rules::refusals::Refusal;
use rules::statuses::Status;

pub fn opened(image: &[u8]) -> u8
    requires { length image.now ≡ image_bytes base }
    ensures { result ≡ (unpack base image.now).opened }
{
    image[OPENED]
}

pub fn next(image: &[u8]) -> u16
    requires { length image.now ≡ image_bytes base }
    ensures { result ≡ (unpack base image.now).next }
{
    octets::load16(image, NEXT)
}

// The status of transactor t.
pub fn status(image: &[u8], t: usize) -> Status
    requires { (length image.now ≡ image_bytes base) × (t < base.transactors) }
    ensures { status_number result ≡ (transactor_at (unpack base image.now) t).status }
{
    Status::of(image[FIRST_TRANSACTOR + TRANSACTOR * t])
}

// Whether transactor t can act: refused as 21 or 22 if not.
pub fn check(image: &[u8], t: usize) -> Result<(), Refusal>
    requires { (length image.now ≡ image_bytes base) × ((unpack base image.now).opened ≤ base.transactors) }
    ensures { refusal_in result ≡ acting_refusal (unpack base image.now) t }
{
    if usize::from(opened(image)) <= t {
        return Err(Refusal::Unopened);
    }
    match status(image, t) {
        Status::Annihilated => Err(Refusal::Gone),
        Status::Unused | Status::Idle | Status::Busy => Ok(()),
    }
}
