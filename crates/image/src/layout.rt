// Sizes and offsets in an image, computed from those of histories and maps.

ghost use Rattle.std.specs.Prelude.{◌≡◌, ◌<◌};
ghost use Rattle.rules.specs.Layout.{base};
ghost use Rattle.image.specs.Internal.Addresses.{own_at, map_at};

pub const TRANSACTORS: usize = maps::ENTRIES;

// Places of messages.
pub const MESSAGES: usize = 32;

// A transactor: status 2 bits, zero 6, value 4 bytes, saved value 4, three maps.
pub const VALUE: usize = 1;

pub const SAVED: usize = 5;

pub const STATE: usize = 9;

pub const CREATION: usize = STATE + maps::SIZE;

pub const BEHAVIOUR: usize = CREATION + maps::SIZE;

pub const TRANSACTOR: usize = BEHAVIOUR + maps::SIZE;

// A message: waiting 1 bit, zero 3, addressee 4, number 2 bytes, value 4, map.
pub const NUMBER: usize = 1;

pub const CONTENT: usize = 3;

pub const DEPENDENCES: usize = 7;

pub const MESSAGE: usize = DEPENDENCES + maps::SIZE;

// The head: transactors opened 1 byte, next message number 2, zero 1.
pub const OPENED: usize = 0;

pub const NEXT: usize = 1;

pub const BLANK: usize = 3;

pub const HEAD: usize = 4;

// After it the session's limits: transactors opened, messages waiting, checkpoints of one transactor, zero, 1 byte each.
pub const MOST_TRANSACTORS: usize = HEAD;

pub const MOST_MESSAGES: usize = HEAD + 1;

pub const MOST_CHECKPOINTS: usize = HEAD + 2;

pub const LIMITS_BLANK: usize = HEAD + 3;

pub const FIRST_TRANSACTOR: usize = HEAD + 4;

pub const FIRST_MESSAGE: usize = FIRST_TRANSACTOR + TRANSACTOR * TRANSACTORS;

pub const IMAGE: usize = FIRST_MESSAGE + MESSAGE * MESSAGES;

// Where the own history of transactor t stands.
pub fn own_at(t: usize) -> usize
    requires { t < base.transactors }
    ensures { result ≡ own_at base t }
{
    FIRST_TRANSACTOR + TRANSACTOR * t + STATE + marks::SIZE * t
}

// Where the map of the message in place k stands.
pub fn map_at(k: usize) -> usize
    requires { k < base.messages }
    ensures { result ≡ map_at base k }
{
    FIRST_MESSAGE + MESSAGE * k + DEPENDENCES
}
