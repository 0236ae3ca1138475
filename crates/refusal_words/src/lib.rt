// Why a call or a step is refused, in words.
#![tactic(auto)]

ghost use Rattle.std.specs.Prelude.{◌≡◌};
ghost use Rattle.lines.specs.Lines.{written, plus, Says};
ghost use Rattle.refusal_words.specs.Words.{refusal_words};

use lines::Line;

// The words of each refusal, from 16 on.
const WORDS: [&[u8]; 20] = [
    b"image not of the right length",
    b"part not inside the list, its length not a multiple of 8, or over 8,192 bytes",
    b"replies, or other room lent, not of the right length",
    b"image ill-formed",
    b"kind 13 to 15, or unused or zero bits not zero",
    b"acting take, addressee or named take not opened",
    b"acting, receiving or named take vanished",
    b"receive when not idle; kinds 3 to 9 when not at work",
    b"parcel not waiting",
    b"no room for a take",
    b"no room for a parcel",
    b"next parcel number is 65535",
    b"a signed take would fall from life 65535",
    b"volume empty",
    b"a named take has no room for a signing",
    b"unrelated marks in parcel and receiver",
    b"a life number or list entry over 255, or limits not 16, 32 and 15",
    b"limits out of range: takes 1 to 16, parcels waiting 1 to 32, signings 1 to 15",
    b"size outside 1 to 16",
    b"width outside 1 to 256",
];

// The words of refusal n behind l; none for any number but 16 to 35.
pub fn words(l: Line, n: u8) -> Line
    ensures { written result ≡ plus (written l) (refusal_words n) }
{
    match n {
        16..=35 => l.word(WORDS[n as usize - 16]),
        _ => l,
    }
}

// The same as a line of its own.
pub fn refusal_line(n: u8) -> Line
    ensures { Says result (refusal_words n) }
{
    words(Line::EMPTY, n)
}
