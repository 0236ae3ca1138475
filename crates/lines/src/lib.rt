// A line of text, byte by byte: words, numbers, groups, hexadecimal digits.
#![tactic(auto)]

ghost use Rattle.std.specs.Prelude.{◌≡◌, ◌+◌, ◌≤◌, ◌<◌, [], ◌∷◌, length, drop};
ghost use Rattle.octets.specs.Bytes.{pick};
ghost use Rattle.rules.specs.Refusals.{named, group_bits};
ghost use Rattle.notation.specs.Notation.{decimal, places, hex_digit, hex, members, group_text};
ghost use Rattle.lines.specs.Lines.{line_room, written, plus};

// Bytes of a line.
pub const ROOM: usize = 256;

// A line by value: what is said in it are the first len bytes. It takes no more than it has room for, so that no function that adds
// to it asks for room. Bytes beside their length, and no Display, which writes to a writer that may fail: the ledger's libraries have no heap.
#[derive(Clone, Copy)]
pub struct Line {
    pub bytes: [u8; 256],
    pub len: usize,
}

#[tactic(auto, unfolding(notation::specs::Notation::hex_digit))]
fn hex_digit(n: u8) -> u8
    requires { n < 16 }
    ensures { result ≡ hex_digit n }
{
    if n < 10 {
        return 48 + n;
    }
    87 + n
}

impl Line {
    // Nothing is said.
    pub const EMPTY: Line = Line {
        bytes: [0; 256],
        len: 0,
    };

    // What is said in it.
    pub fn as_bytes(&self) -> &[u8]
        ensures { result.now ≡ written self.now }
    {
        &self.bytes[..self.len.min(ROOM)]
    }

    // One byte more, or none where the line is full.
    fn push(&mut self, b: u8)
        ensures { written self.new ≡ plus (written self.old) (b ∷ []) }
    {
        let at = self.len;
        if ROOM <= at {
            return;
        }
        self.bytes[at] = b;
        self.len = at + 1;
    }

    // The digits of n, one behind the other. The line is lent: by value it would be copied for each digit, and all copies would be on the
    // stack at once.
    fn push_number(&mut self, n: u32)
        ensures { written self.new ≡ plus (written self.old) (decimal places n) }
    {
        let last = b'0' + (n % 10) as u8;
        if n < 10 {
            self.push(last);
            return;
        }
        self.push_number(n / 10);
        self.push(last);
    }

    pub fn byte(mut self, b: u8) -> Line
        ensures { written result ≡ plus (written self) (b ∷ []) }
    {
        self.push(b);
        self
    }

    pub fn word(mut self, w: &[u8]) -> Line
        ensures { written result ≡ plus (written self) w.now }
    {
        for b in w {
            self.push(*b);
        }
        self
    }

    // n in decimal.
    pub fn number(mut self, n: u32) -> Line
        ensures { written result ≡ plus (written self) (decimal places n) }
    {
        self.push_number(n);
        self
    }

    // Two hexadecimal digits for each byte of b.
    pub fn hex(mut self, b: &[u8]) -> Line
        ensures { written result ≡ plus (written self) (hex b.now) }
    {
        for x in b {
            self.push(hex_digit(*x / 16));
            self.push(hex_digit(*x % 16));
        }
        self
    }

    // Transactor t (document 01: take) with a comma before it, if the group g (volume) names it.
    fn member(self, g: u16, t: usize) -> Line
        requires { t < group_bits }
        ensures { written result ≡ plus (written self) (pick (named g t) (44 ∷ decimal places t) []) }
    {
        if lists::groups::is_named(g, t) {
            return self.byte(b',').number(t as u32);
        }
        self
    }

    // The transactors that g names, with a comma before each.
    fn members(self, g: u16) -> Line
        ensures { written result ≡ plus (written self) (members group_bits 0 g) }
    {
        let mut r = self;
        for t in 0..16 {
            r = r.member(g, t);
        }
        r
    }

    // What is said in other, without its first byte.
    pub fn rest(self, other: Line) -> Line
        requires { other.len ≤ line_room }
        ensures { written result ≡ plus (written self) (drop 1 (written other)) }
    {
        let n = other.len;
        let bytes = other.bytes;
        if n == 0 {
            return self;
        }
        self.word(&bytes[1..n])
    }

    // The transactors that g names, in braces.
    pub fn group(self, g: u16) -> Line
        ensures { written result ≡ plus (written self) (group_text g) }
    {
        let named = Line::EMPTY.members(g);
        self.byte(b'{').rest(named).byte(b'}')
    }
}
