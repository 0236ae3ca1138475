// What a step that is not refused comes to, by the numbers of the outcomes.
ghost use Rattle.std.specs.Prelude.{◌≡◌, ◌<◌};
ghost use Rattle.rules.specs.Numbers.{outcome_number};

#[derive(Clone, Copy, Debug, PartialEq, Eq)]
pub enum Outcome {
    Done = 0,
    // frozen, so it stays as it is
    Held = 1,
    Dropped = 2,
    FallenBack = 3,
    Vanished = 4,
    NotReady = 5,
}

impl Outcome {
    // Its number, the first byte of a packed reply.
    pub fn number(self) -> u8
        ensures number { result ≡ outcome_number self }
        ensures low { result < 6 }
    {
        self as u8
    }
}
