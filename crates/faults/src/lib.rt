// What a text lacks where it has a fault, in the documents' words.
#![tactic(auto)]

ghost use Rattle.std.specs.Prelude.{◌≡◌};
ghost use Rattle.notation.specs.Parsing.{expected_of, expected_text, expected_words};
ghost use Rattle.lines.specs.Lines.{Says};

use lines::Line;
use notation::Expected;

// What the number n stands for; of a number that nothing expected has, room for the step.
pub fn expected_of(n: u8) -> Expected
    ensures { result ≡ expected_of n }
{
    match Expected::try_from(n) {
        Ok(e) => e,
        Err(_) => Expected::Room,
    }
}

// The words of what was expected.
pub fn words(e: Expected) -> &'static [u8]
    ensures { result.now ≡ expected_text e }
{
    match e {
        Expected::Transactor => b"a take, 0 to 15",
        Expected::Addressee => b"an addressee, a take, 0 to 15",
        Expected::Message => b"a parcel, 0 to 65535",
        Expected::Value => b"a text, 0 to 4294967295",
        Expected::Group => b"a volume in braces",
        Expected::WordTo => b"the word to",
        Expected::WordText => b"the word text",
        Expected::SixteenDigits => b"16 hexadecimal digits",
        Expected::Kind => b"a kind of step",
        Expected::CommaOrBrace => b"a comma or a closing brace",
        Expected::LineEnd => b"the end of the line",
        Expected::Room => b"room for this step",
    }
}

// The words of the number n; none for any but 1 to 12.
pub fn expected_line(n: u8) -> Line
    ensures { Says result (expected_words n) }
{
    match Expected::try_from(n) {
        Ok(e) => Line::EMPTY.word(words(e)),
        Err(_) => Line::EMPTY,
    }
}
