// Whether an image is well-formed, transactor by transactor, message by message; and what a call refuses any image for (16, 19), and a query (21, 22).
#![tactic(auto)]

ghost use Rattle.std.specs.Prelude.{IfOk, ◌≡◌, ◌/◌, ◌<◌, length, get_or};
ghost use Rattle.octets.specs.Bytes.{every};
ghost use Rattle.rules.specs.Layout.{base, transactor_address, image_bytes};
ghost use Rattle.rules.specs.Pack.{waiting_in, unpack};
ghost use Rattle.rules.specs.Form.{well_formed};
ghost use Rattle.rules.specs.Calls.{query_refusal};
ghost use Rattle.rules.specs.Internal.Guards.{image_refusal};
ghost use Rattle.rules.specs.Numbers.{status_number, refusal_in};
ghost use Rattle.form.specs.Internal.Tests.{Headed, formed_own_at, formed_live_at, formed_transactor_at, least_at, formed_message_at, formed_front};

use image::formed::Formed;
use image::layout::{
    BEHAVIOUR, BLANK, CREATION, DEPENDENCES, FIRST_MESSAGE, FIRST_TRANSACTOR, IMAGE, LIMITS_BLANK,
    MESSAGE, MESSAGES, NUMBER, SAVED, STATE, TRANSACTOR, TRANSACTORS, own_at,
};
use image::{head, limits, messages};
use rules::refusals::Refusal;
use rules::statuses::Status;

// An image of the right length, and what its first bytes say, which every part of it is tested by.
#[derive(Clone, Copy)]
pub struct Front<'a> {
    pub bytes: &'a [u8],
    // how many messages wait
    pub waiting: usize,
    // how many transactors are opened
    pub opened: usize,
    // the next message number
    pub next: u16,
    // how many checkpoints a transactor may have
    pub limit: u8,
    ghost headed: { Headed bytes.now opened limit },
    ghost waits: { waiting ≡ waiting_in base bytes.now },
    ghost numbered: { next ≡ (unpack base bytes.now).next },
}

// Its own history, and no saved value before a checkpoint.
fn own_formed(s: &[u8], t: usize) -> bool
    requires { (length s.now ≡ image_bytes base) × (t < base.transactors) }
    ensures { result ≡ formed_own_at base s.now t }
{
    let there = own_at(t);
    if !packed_histories::present(s, there) {
        return false;
    }
    let own = packed_histories::load(s, there);
    if own.count != 0 {
        return true;
    }
    octets::load32(s, FIRST_TRANSACTOR + TRANSACTOR * t + SAVED) == 0
}

// One more than the number in the place before k; 0 for the first.
fn least(s: &[u8], k: usize) -> usize
    requires { (length s.now ≡ image_bytes base) × (k < base.messages) }
    ensures { result ≡ least_at base s.now k }
{
    if k == 0 {
        return 0;
    }
    let before = k - 1;
    octets::load16(s, FIRST_MESSAGE + MESSAGE * before + NUMBER) as usize + 1
}

impl Front<'_> {
    // A transactor, idle or at work.
    fn live_formed(&self, t: usize, status: Status) -> bool
        requires below { t < base.transactors }
        requires stored { status_number status ≡ get_or self.now.bytes.now (transactor_address base t) 0 / 64 }
        ensures { result ≡ formed_live_at base self.now.bytes.now t }
    {
        let s = self.bytes;
        let at = FIRST_TRANSACTOR + TRANSACTOR * t;
        if !packed_maps::formed(s, at + STATE, self.opened, self.limit) {
            return false;
        }
        if !packed_maps::formed(s, at + CREATION, self.opened, self.limit) {
            return false;
        }
        if !own_formed(s, t) {
            return false;
        }
        match status {
            Status::Idle => octets::all_zero(s, at + BEHAVIOUR, maps::SIZE),
            _ => packed_maps::formed(s, at + BEHAVIOUR, self.opened, self.limit),
        }
    }

    // One transactor.
    fn transactor_formed(&self, t: usize) -> bool
        requires { t < base.transactors }
        ensures { result ≡ formed_transactor_at base self.now.bytes.now t }
    {
        let s = self.bytes;
        let at = FIRST_TRANSACTOR + TRANSACTOR * t;
        if self.opened <= t {
            return octets::all_zero(s, at, TRANSACTOR);
        }
        let head = s[at];
        if head % 64 != 0 {
            return false;
        }
        let status = Status::of(head);
        match status {
            Status::Unused => false,
            Status::Annihilated => octets::all_zero(s, at + 1, TRANSACTOR - 1),
            Status::Idle | Status::Busy => self.live_formed(t, status),
        }
    }

    // Place k of the messages, of which the first wait.
    fn message_formed(&self, k: usize) -> bool
        requires { k < base.messages }
        ensures { result ≡ formed_message_at base self.now.bytes.now k }
    {
        let s = self.bytes;
        let at = FIRST_MESSAGE + MESSAGE * k;
        if self.waiting <= k {
            return octets::all_zero(s, at, MESSAGE);
        }
        let head = s[at];
        if head / 16 != 8 {
            return false;
        }
        let to = (head % 16) as usize;
        if self.opened <= to {
            return false;
        }
        let number = octets::load16(s, at + NUMBER);
        if self.next <= number {
            return false;
        }
        if (number as usize) < least(s, k) {
            return false;
        }
        packed_maps::formed(s, at + DEPENDENCES, self.opened, self.limit)
    }

    fn transactors_formed(&self) -> bool
        ensures { result ≡ every base.transactors (formed_transactor_at base self.now.bytes.now) }
    {
        (0..TRANSACTORS).all(|t| self.transactor_formed(t))
    }

    fn messages_formed(&self) -> bool
        ensures { result ≡ every base.messages (formed_message_at base self.now.bytes.now) }
    {
        (0..MESSAGES).all(|k| self.message_formed(k))
    }
}

// The head and the limits, of which n messages that wait are within theirs.
fn front_formed(s: &[u8], n: usize) -> bool
    requires { (length s.now ≡ image_bytes base) × (n ≡ waiting_in base s.now) }
    ensures { result ≡ formed_front base s.now }
{
    if s[BLANK] != 0 {
        return false;
    }
    if s[LIMITS_BLANK] != 0 {
        return false;
    }
    let most = limits::transactors(s);
    let most_messages = limits::messages(s) as usize;
    if !lists::limits::in_range(
        most as usize,
        most_messages,
        limits::checkpoints(s) as usize,
    ) {
        return false;
    }
    if most < head::opened(s) {
        return false;
    }
    n <= most_messages
}

pub fn formed(s: &[u8]) -> bool
    requires { length s.now ≡ image_bytes base }
    ensures { result ≡ well_formed base s.now }
{
    let waiting = messages::waiting(s);
    if !front_formed(s, waiting) {
        return false;
    }
    let front = Front {
        bytes: s,
        waiting,
        opened: head::opened(s) as usize,
        next: head::next(s),
        limit: limits::checkpoints(s),
    };
    front.transactors_formed() && front.messages_formed()
}

// The image, lent as one that is well-formed; or what a call refuses any image for, 16 or 19.
pub fn check_image(s: &[u8]) -> Result<Formed<'_>, Refusal>
    ensures refused { refusal_in result ≡ image_refusal base s.now }
    ensures lent { IfOk result (λ f. f.bytes.now ≡ s.now) }
{
    if s.len() != IMAGE {
        return Err(Refusal::WrongLength);
    }
    if !formed(s) {
        return Err(Refusal::IllFormed);
    }
    Ok(Formed { bytes: s })
}

// The same of a query about one transactor, which is also refused as 21 or 22.
pub fn check_query(image: &[u8], transactor: usize) -> Result<Formed<'_>, Refusal>
    ensures refused { refusal_in result ≡ query_refusal base image.now transactor }
    ensures lent { IfOk result (λ f. f.bytes.now ≡ image.now) }
{
    let formed = check_image(image)?;
    head::check(image, transactor)?;
    Ok(formed)
}
