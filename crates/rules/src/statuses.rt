// The statuses of a transactor (document 01: a take), by their numbers.
ghost use Rattle.std.specs.Prelude.{◌≡◌, ◌/◌, ◌<◌};
ghost use Rattle.rules.specs.Numbers.{status_number};

#[derive(Clone, Copy, Debug, PartialEq, Eq)]
pub enum Status {
    // not opened
    Unused = 0,
    Idle = 1,
    // at work
    Busy = 2,
    // vanished
    Annihilated = 3,
}

impl Status {
    // Its number, the two high bits of a transactor's first byte.
    pub fn number(self) -> u8
        ensures number { result ≡ status_number self }
        ensures two_bits { result < 4 }
    {
        self as u8
    }

    // The status in the two high bits of a transactor's first byte.
    pub fn of(first: u8) -> Status
        ensures { status_number result ≡ first / 64 }
    {
        match first / 64 {
            0 => Status::Unused,
            1 => Status::Idle,
            2 => Status::Busy,
            _ => Status::Annihilated,
        }
    }
}
