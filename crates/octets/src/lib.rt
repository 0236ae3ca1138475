// Bytes in a lent buffer: stores, moves, tests and numbers, each at an offset.
#![tactic(auto)]

ghost use Rattle.std.specs.Prelude.{◌≡◌, ◌+◌, ◌*◌, ◌<◌, ◌≤◌, ◌++◌, length, get_or};
ghost use Rattle.std.specs.Int.{w64, from_le_bytes};
ghost use Rattle.octets.specs.Bytes.{put, part, zeros, all_zero, alike};
ghost use Rattle.octets.specs.Numbers.{be, of_be};

// Writes all of src from at on.
pub fn write(image: &mut [u8], at: usize, src: &[u8])
    requires { at + length src.now ≤ length image.old }
    ensures { image.new ≡ put at src.now image.old }
{
    let end = at + src.len();
    image[at..end].copy_from_slice(src);
}

// Writes n zero bytes from at on.
pub fn clear(image: &mut [u8], at: usize, n: usize)
    requires { at + n ≤ length image.old }
    ensures { image.new ≡ put at (zeros n) image.old }
{
    image[at..at + n].fill(0);
}

// Moves the n bytes from at + gap on down to at.
pub fn lower(image: &mut [u8], at: usize, gap: usize, n: usize)
    requires { at + gap + n ≤ length image.old }
    ensures { image.new ≡ put at (part (at + gap) n image.old) image.old }
{
    // by for and not by copy_within, which may go either way: so the compiler makes it one memmove
    for i in 0..n {
        image[at + i] = image[at + gap + i];
    }
}

// Copies the n bytes from from on to to on, which is behind them.
// Stays beside lower: each is one call of std, and one function for both would be no plainer.
pub fn raise(image: &mut [u8], from: usize, to: usize, n: usize)
    requires { (from + n ≤ to) × (to + n ≤ length image.old) }
    ensures { image.new ≡ put to (part from n image.old) image.old }
{
    image.copy_within(from..from + n, to);
}

// Removes the gap bytes at at, of those up to at + gap + n, and clears the last gap of these.
pub fn remove(image: &mut [u8], at: usize, gap: usize, n: usize)
    requires { at + gap + n ≤ length image.old }
    ensures { image.new ≡ put at (part (at + gap) n image.old ++ zeros gap) image.old }
{
    lower(image, at, gap, n);
    clear(image, at + n, gap);
}

// Whether the n bytes from at on are all zero. No early exit, so that the loop vectorises.
pub fn all_zero(s: &[u8], at: usize, n: usize) -> bool
    requires { at + n ≤ length s.now }
    ensures { result ≡ all_zero (part at n s.now) }
{
    let mut any: u8 = 0;
    for x in &s[at..at + n] {
        any |= *x;
    }
    any == 0
}

// The number in the 2 bytes from at on.
pub fn load16(s: &[u8], at: usize) -> u16
    requires { at + 2 ≤ length s.now }
    ensures { result ≡ of_be 2 (part at 2 s.now) }
{
    u16::from_be_bytes([s[at], s[at + 1]])
}

// The 8 bytes from at on as one number, the first the lowest: one read.
fn word(s: &[u8], at: usize) -> u64
    requires { at + 8 ≤ length s.now }
    ensures { result ≡ from_le_bytes w64 (part at 8 s.now) }
{
    u64::from_le_bytes([
        s[at],
        s[at + 1],
        s[at + 2],
        s[at + 3],
        s[at + 4],
        s[at + 5],
        s[at + 6],
        s[at + 7],
    ])
}

// Whether the 8 bytes from a on are those from b on: two reads, and no loop, so that it costs little wherever it is put.
fn same8(s: &[u8], a: usize, b: usize) -> bool
    requires { (a + 8 ≤ length s.now) × (b + 8 ≤ length s.now) }
    ensures { result ≡ alike s.now a b 8 }
{
    word(s, a) == word(s, b)
}

// Whether the 16 bytes from a on are those from b on.
pub fn same16(s: &[u8], a: usize, b: usize) -> bool
    requires { (a + 16 ≤ length s.now) × (b + 16 ≤ length s.now) }
    ensures { result ≡ alike s.now a b 16 }
{
    same8(s, a, b) && same8(s, a + 8, b + 8)
}

// The number in the 4 bytes from at on.
pub fn load32(s: &[u8], at: usize) -> u32
    requires { at + 4 ≤ length s.now }
    ensures { result ≡ of_be 4 (part at 4 s.now) }
{
    u32::from_be_bytes([s[at], s[at + 1], s[at + 2], s[at + 3]])
}

// Writes n in 2 bytes from at on.
pub fn store16(image: &mut [u8], at: usize, n: u16)
    requires { at + 2 ≤ length image.old }
    ensures { image.new ≡ put at (be 2 n) image.old }
{
    write(image, at, &u16::to_be_bytes(n));
}

// Writes n in 4 bytes from at on.
pub fn store32(image: &mut [u8], at: usize, n: u32)
    requires { at + 4 ≤ length image.old }
    ensures { image.new ≡ put at (be 4 n) image.old }
{
    write(image, at, &u32::to_be_bytes(n));
}
