// Bytes at places that may be past the end.
ghost use Rattle.std.specs.Prelude.{◌%◌, ◌≡◌, eqb, length, get_or, set};
ghost use Rattle.octets.specs.Bytes.{every};

// The byte at at; 0 past the end.
pub fn get(s: &[u8], at: usize) -> u8
    ensures { result ≡ get_or s.now at 0 }
{
    s.get(at).copied().unwrap_or(0)
}

// Writes a byte, if it stands there.
pub fn set(s: &mut [u8], at: usize, b: usize)
    ensures { s.new ≡ set s.old at (b % 256) }
{
    if at < s.len() {
        s[at] = (b % 256) as u8;
    }
}

// The first bytes are those of from, and zeros follow.
pub(crate) fn copy(s: &mut [u8], from: &[u8]) {
    let n = s.len().min(from.len());
    s[..n].copy_from_slice(&from[..n]);
    s[n..].fill(0);
}

// Whether the first bytes are those of start.
pub fn starts_with(s: &[u8], start: &[u8]) -> bool
    ensures { result ≡ every (length start.now) (λ i. eqb (get_or s.now i 0) (get_or start.now i 0)) }
{
    (0..start.len()).all(|i| get(s, i) == start[i])
}

// The number of so many bytes from at on.
pub(crate) fn packed(s: &[u8], at: usize, width: usize) -> usize {
    let mut n: usize = 0;
    for k in 0..width {
        n = n % 16777216 * 256 + usize::from(get(s, at % 4294967296 + k % 4));
    }
    n
}
