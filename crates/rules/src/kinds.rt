// The kinds of a step, by the numbers that document 01 gives them.
ghost use Rattle.std.specs.Prelude.{◌≡◌};
ghost use Rattle.rules.specs.Numbers.{kind_number, IsKind};

#[derive(Clone, Copy, Debug, PartialEq, Eq)]
pub enum Kind {
    Root = 0,
    Letter = 1,
    Receive = 2,
    New = 3,
    Send = 4,
    Read = 5,
    Write = 6,
    Freeze = 7,
    // "done": the step that ends a take's work
    Finish = 8,
    Fall = 9,
    Fail = 10,
    Lose = 11,
    Sign = 12,
}

// A number, from 13 on, that no kind has.
#[derive(Clone, Copy, Debug, PartialEq, Eq)]
pub struct UnknownKind(pub u8);

impl Kind {
    // Its number, four bits of a packed step.
    pub fn number(self) -> u8
        ensures { result ≡ kind_number self }
    {
        self as u8
    }
}

impl TryFrom<u8> for Kind {
    type Error = UnknownKind;

    ghost try_from_gives = { IsKind };

    fn try_from(number: u8) -> Result<Kind, UnknownKind> {
        match number {
            0 => Ok(Kind::Root),
            1 => Ok(Kind::Letter),
            2 => Ok(Kind::Receive),
            3 => Ok(Kind::New),
            4 => Ok(Kind::Send),
            5 => Ok(Kind::Read),
            6 => Ok(Kind::Write),
            7 => Ok(Kind::Freeze),
            8 => Ok(Kind::Finish),
            9 => Ok(Kind::Fall),
            10 => Ok(Kind::Fail),
            11 => Ok(Kind::Lose),
            12 => Ok(Kind::Sign),
            _ => Err(UnknownKind(number)),
        }
    }
}
