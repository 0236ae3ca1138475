// The messages of an image: waiting ones first, in rising number.
ghost use Rattle.std.specs.Prelude.{◌≡◌, ◌+◌, ◌≤◌, ◌<◌, length, set};
ghost use Rattle.octets.specs.Bytes.{put};
ghost use Rattle.octets.specs.Numbers.{be};
ghost use Rattle.rules.specs.Layout.{last_number, base, image_bytes, dependences_at};
ghost use Rattle.rules.specs.Rules.{carried, no_dependences};
ghost use Rattle.rules.specs.State.{place_from, place_of, transactor_at, message_at, with_message, without_message};
ghost use Rattle.rules.specs.Pack.{waiting_in, pack, unpack};
ghost use Rattle.rules.specs.Internal.Good.{Good};
ghost use Rattle.rules.specs.State.{addressed_to};
ghost use Rattle.image.specs.Internal.Search.{Found};

use crate::head;
use crate::layout::{
    BEHAVIOUR, CONTENT, CREATION, DEPENDENCES, FIRST_MESSAGE, FIRST_TRANSACTOR, MESSAGE, MESSAGES,
    NEXT, NUMBER, TRANSACTOR, own_at,
};

// How many messages wait.
pub fn waiting(image: &[u8]) -> usize
    requires { length image.now ≡ image_bytes base }
    ensures { (result ≡ waiting_in base image.now) × (result ≤ base.messages) }
{
    (0..MESSAGES)
        .find(|k| image[FIRST_MESSAGE + MESSAGE * *k] < 128)
        .unwrap_or(MESSAGES)
}

// The place of the message with this number, among the n that wait. By `for`, as measured: a step that receives or loses a message has this
// search in its own code, where its number is turned round once; `find` made the same search slower there.
pub fn place_numbered(image: &[u8], n: usize, number: usize) -> Option<usize>
    requires { (length image.now ≡ image_bytes base) × (n ≡ waiting_in base image.now) × (n ≤ base.messages) }
    ensures { Found (place_of (unpack base image.now) number) n result }
{
    for k in 0..n {
        if number_of(image, k) as usize == number {
            return Some(k);
        }
    }
    None
}

// The same of a number that a message can have.
pub fn place_of(image: &[u8], n: usize, number: u16) -> Option<usize>
    requires { (length image.now ≡ image_bytes base) × (n ≡ waiting_in base image.now) × (n ≤ base.messages) }
    ensures { Found (place_of (unpack base image.now) number) n result }
{
    place_numbered(image, n, usize::from(number))
}

// The first place of a message to transactor t, among the n that wait.
pub fn place_to(image: &[u8], n: usize, t: usize) -> Option<usize>
    requires { (length image.now ≡ image_bytes base) × (n ≡ waiting_in base image.now) × (n ≤ base.messages) }
    ensures { Found (place_from (addressed_to (unpack base image.now) t) 0 n) n result }
{
    (0..n).find(|k| addressee(image, *k) == t)
}

// The addressee of the message in place k.
pub fn addressee(image: &[u8], k: usize) -> usize
    requires { (length image.now ≡ image_bytes base) × (k < waiting_in base image.now) }
    ensures { (result ≡ (message_at (unpack base image.now) k).addressee) × (result < 16) }
{
    let head = image[FIRST_MESSAGE + MESSAGE * k] as usize;
    head % 16
}

// The number of the message in place k.
pub fn number_of(image: &[u8], k: usize) -> u16
    requires { (length image.now ≡ image_bytes base) × (k < waiting_in base image.now) }
    ensures { result ≡ (message_at (unpack base image.now) k).number }
{
    octets::load16(image, FIRST_MESSAGE + MESSAGE * k + NUMBER)
}

// The value of the message in place k.
pub fn content(image: &[u8], k: usize) -> u32
    requires { (length image.now ≡ image_bytes base) × (k < waiting_in base image.now) }
    ensures { result ≡ (message_at (unpack base image.now) k).value }
{
    octets::load32(image, FIRST_MESSAGE + MESSAGE * k + CONTENT)
}

// One more message, with the next number and what transactor t carries, in place n, the first that is free.
pub fn append(image: &mut [u8], n: usize, to: u8, value: u32, t: usize)
    requires { Good image.old × (n ≡ waiting_in base image.old) × (n < base.messages) × (to < 16) × ((unpack base image.old).next < last_number) × (t < base.transactors) }
    ensures { image.new ≡ pack base (with_message (unpack base image.old) to value (carried base t (transactor_at (unpack base image.old) t))) }
{
    let number = head::next(image);
    let at = FIRST_MESSAGE + MESSAGE * n;
    store_fields(image, at, to, number, value);
    let from = FIRST_TRANSACTOR + TRANSACTOR * t;
    let creation = from + CREATION;
    let behaviour = from + BEHAVIOUR;
    let own = own_at(t);
    stored_maps::join_to(image, creation, behaviour, own, t, at + DEPENDENCES);
    octets::store16(image, NEXT, number + 1);
}

// The same of a message whose map is empty. Beside append: that one reads the sender's three maps, and a closure over the lent image is no plainer.
pub fn append_empty(image: &mut [u8], n: usize, to: u8, value: u32)
    requires { Good image.old × (n ≡ waiting_in base image.old) × (n < base.messages) × (to < 16) × ((unpack base image.old).next < last_number) }
    ensures { image.new ≡ pack base (with_message (unpack base image.old) to value (no_dependences base)) }
{
    let number = head::next(image);
    let at = FIRST_MESSAGE + MESSAGE * n;
    store_fields(image, at, to, number, value);
    stored_maps::store_empty(image, at + DEPENDENCES);
    octets::store16(image, NEXT, number + 1);
}

// The fields of a message from at on, but its map.
fn store_fields(image: &mut [u8], at: usize, to: u8, number: u16, value: u32)
    requires { (at + dependences_at ≤ length image.old) × (to < 16) }
    ensures { image.new ≡ put (at + 3) (be 4 value) (put (at + 1) (be 2 number) (set image.old at (128 + to))) }
{
    image[at] = 128 + to;
    octets::store16(image, at + NUMBER, number);
    octets::store32(image, at + CONTENT, value);
}

// The message in place k of n is gone; the later ones move down.
pub fn remove(image: &mut [u8], k: usize, n: usize)
    requires { (length image.old ≡ image_bytes base) × (pack base (unpack base image.old) ≡ image.old) × (n ≡ waiting_in base image.old) × (n ≤ base.messages) × (k < n) }
    ensures { image.new ≡ pack base (without_message (unpack base image.old) k) }
{
    octets::remove(
        image,
        FIRST_MESSAGE + MESSAGE * k,
        MESSAGE,
        MESSAGE * (n - (k + 1)),
    );
}
