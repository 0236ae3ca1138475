// Bytes of a line, runs of them, and numbers.
#![tactic(auto)]

pub mod words;

ghost use Rattle.std.specs.Prelude.{◌≡◌, ◌+◌, ◌<◌, drop, get_or};
ghost use Rattle.notation.specs.Reading.{blank, in_word, run, next};
ghost use Rattle.scan.specs.Internal.Scan.{Bounded};

#[tactic(auto, unfolding(notation::specs::Reading::blank))]
fn is_blank(c: u8) -> bool
    ensures { result ≡ blank c }
{
    c == b' ' || c == b'\t' || c == b'\r'
}

#[tactic(auto, unfolding(notation::specs::Reading::in_word))]
fn is_word(c: u8) -> bool
    ensures { result ≡ in_word c }
{
    !(is_blank(c) || c == b'{' || c == b',' || c == b'}')
}

// The place of the next byte that is no blank, from from on. By `for` over places, here and in word_end: `skip` of an iterator goes through
// all bytes before from, and a part costs each word its length.
pub fn skip(s: &[u8], from: usize) -> usize
    ensures { result ≡ next s.now from }
{
    for at in from..s.len() {
        if !is_blank(s[at]) {
            return at;
        }
    }
    from.max(s.len())
}

// The end of the word at from.
pub fn word_end(s: &[u8], from: usize) -> usize
    ensures { result ≡ from + run in_word (drop from s.now) }
{
    for at in from..s.len() {
        if !is_word(s[at]) {
            return at;
        }
    }
    from.max(s.len())
}

// The byte at at, or 0 past the end.
pub fn byte_at(s: &[u8], at: usize) -> u8
    ensures { result ≡ get_or s.now at 0 }
{
    s.get(at).copied().unwrap_or(0)
}

// The number that the digits of w give, if it is at most most; none where w has another byte or none.
pub fn number(w: &[u8], most: u64) -> Option<u64>
    requires { most < 4294967296 }
    ensures { Bounded most w.now result }
{
    let none = w.is_empty();
    if none {
        return None;
    }
    let mut n: u64 = 0;
    for c in w {
        if !c.is_ascii_digit() {
            return None;
        }
        n = n * 10 + (*c - b'0') as u64;
        if most < n {
            return None;
        }
    }
    Some(n)
}
