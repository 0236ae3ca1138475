// Why a call or a step is refused, by the numbers of document 01's table and of document 02.
ghost use Rattle.std.specs.Prelude.{◌≡◌, ◌≤◌};
ghost use Rattle.rules.specs.Numbers.{refusal_number};

#[derive(Clone, Copy, Debug, PartialEq, Eq)]
pub enum Refusal {
    // an image not as long as the layout says
    WrongLength = 16,
    // a part not inside the list, its length not a multiple of 8, or over 8,192 bytes
    WrongPart = 17,
    // room for replies not as long as the part
    WrongRoom = 18,
    // an image that is not well-formed
    IllFormed = 19,
    // kind 13 to 15, or an unused field or the zero bits not zero
    Malformed = 20,
    // acting transactor, addressee or named transactor not opened
    Unopened = 21,
    // acting, receiving or named transactor annihilated (document 01: vanished)
    Gone = 22,
    // receive when not idle; kinds 3 to 9 when not busy (at work)
    WrongStatus = 23,
    // message (document 01: parcel) not waiting
    NotWaiting = 24,
    // as many transactors opened as the session's limit
    AllOpened = 25,
    // as many messages waiting as the session's limit
    AllWaiting = 26,
    // the next message number is 65,535
    AllNumbered = 27,
    // a checkpointed (signed) transactor would fall from the largest incarnation (life) number
    LastIncarnation = 28,
    // the group (volume) is empty
    EmptyGroup = 29,
    // a named transactor has as many checkpoints as the session's limit
    AllCheckpointed = 30,
    // some transactor has unrelated histories (marks) in the message and in what the receiver rests on
    Unrelated = 31,
    // conversion back: a number over 255, or limits other than 16, 32 and 15
    TooWide = 32,
    // begin: a limit out of range
    OutOfRange = 33,
    // how many groups are ready: a size outside 1 to 16
    WrongSize = 34,
    // worst window: a width outside 1 to 256
    WrongWidth = 35,
}

impl Refusal {
    // Its number, from 16 on.
    pub fn number(self) -> u8
        ensures number { result ≡ refusal_number self }
        ensures no_outcome { 16 ≤ result }
    {
        self as u8
    }
}
