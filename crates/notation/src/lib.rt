// Step lists as text: definitions, laws, and the types that reader and printer name.
#![tactic(auto)]

ghost use Rattle.std.specs.Prelude.{◌≡◌};
ghost use Rattle.notation.specs.Notation.{field_number, item_number};
ghost use Rattle.notation.specs.Parsing.{number_of, IsExpected};

use rules::Step;

// A field of a step, by its number.
#[derive(Clone, Copy, Debug, PartialEq, Eq)]
pub enum Field {
    Transactor = 1,
    // The addressee of a send.
    Other = 2,
    Message = 3,
    Value = 4,
}

// What stands behind the name of a kind.
#[derive(Clone, Copy, Debug, PartialEq, Eq)]
pub enum Item {
    // The number of a field.
    Number(Field),
    // A group in braces (document 01: volume).
    Members,
    // The word to.
    To,
    // The word text.
    Text,
    // Sixteen hexadecimal digits, for all of the step.
    Digits,
}

// Where a line's reader stands (a column from 0), and the step so far.
#[derive(Clone, Copy)]
pub struct Place {
    pub at: usize,
    pub step: Step,
}

// Where a line lacks something (a column from 0), what was read of its step so far, and what it lacks.
#[derive(Clone, Copy)]
pub struct Lack {
    pub at: usize,
    pub step: Step,
    pub expected: Expected,
}

// What a text lacks where it has a fault, by its number.
#[derive(Clone, Copy, Debug, PartialEq, Eq)]
pub enum Expected {
    // A take, 0 to 15.
    Transactor = 1,
    // A take, 0 to 15: the addressee of a send.
    Addressee = 2,
    // A parcel, 0 to 65535.
    Message = 3,
    // A text, 0 to 4294967295.
    Value = 4,
    // A volume, which begins with an opening brace.
    Group = 5,
    // The word to.
    WordTo = 6,
    // The word text.
    WordText = 7,
    // Sixteen hexadecimal digits.
    SixteenDigits = 8,
    // A kind of step, or raw.
    Kind = 9,
    CommaOrBrace = 10,
    // Nothing more than a comment.
    LineEnd = 11,
    // Room for this step in the list.
    Room = 12,
}

// A number, 0 or from 13 on, that nothing expected has.
#[derive(Clone, Copy, Debug, PartialEq, Eq)]
pub struct UnknownExpected(pub u8);

impl Expected {
    pub fn number(self) -> u8
        ensures { result ≡ number_of self }
    {
        self as u8
    }
}

impl TryFrom<u8> for Expected {
    type Error = UnknownExpected;

    ghost try_from_gives = { IsExpected };

    fn try_from(number: u8) -> Result<Expected, UnknownExpected> {
        match number {
            1 => Ok(Expected::Transactor),
            2 => Ok(Expected::Addressee),
            3 => Ok(Expected::Message),
            4 => Ok(Expected::Value),
            5 => Ok(Expected::Group),
            6 => Ok(Expected::WordTo),
            7 => Ok(Expected::WordText),
            8 => Ok(Expected::SixteenDigits),
            9 => Ok(Expected::Kind),
            10 => Ok(Expected::CommaOrBrace),
            11 => Ok(Expected::LineEnd),
            12 => Ok(Expected::Room),
            _ => Err(UnknownExpected(number)),
        }
    }
}

// What is missing where the item was to be.
impl From<Item> for Expected {
    ghost from_gives = { λ i e. number_of e ≡ item_number i };

    fn from(item: Item) -> Expected {
        match item {
            Item::Number(Field::Transactor) => Expected::Transactor,
            Item::Number(Field::Other) => Expected::Addressee,
            Item::Number(Field::Message) => Expected::Message,
            Item::Number(Field::Value) => Expected::Value,
            Item::Members => Expected::Group,
            Item::To => Expected::WordTo,
            Item::Text => Expected::WordText,
            Item::Digits => Expected::SixteenDigits,
        }
    }
}

// A text's first fault: its line and column from 1, the column in bytes, and what is missing there.
#[derive(Clone, Copy)]
pub struct Fault {
    pub line: usize,
    pub column: usize,
    pub expected: Expected,
}
