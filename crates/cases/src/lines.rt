// A line's parts: the letter and numbers, each after a space, and then, after a space, a bar and a space, the label.
ghost use Rattle.std.specs.Prelude.{◌≡◌, ◌≤◌, filter, length};

// A line without the LF that ends it.
pub fn without_end(s: &[u8]) -> &[u8]
    ensures { length result.now ≤ length s.now }
{
    match s.split_last() {
        Some((b'\n', line)) => line,
        _ => s,
    }
}

// A line's letter and numbers, and its label.
pub(crate) fn parts(s: &[u8]) -> (&[u8], &[u8]) {
    match s.windows(2).position(|two| two == b" |".as_slice()) {
        Some(end) => (&s[..end], s.get(end + 3..).unwrap_or(&s[..0])),
        None => (s, &s[..0]),
    }
}
