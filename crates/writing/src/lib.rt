// Lines to standard output or standard error.
#![tactic(auto)]

ghost use Rattle.std.specs.Prelude.{◌<◌, false, ◌≡◌, Ok, IfOk, nat_le};
ghost use Rattle.lines.specs.Lines.{line_room};

use lines::Line;
use std::io;

// Writes the line to standard output or standard error; answers whether all of it was written, and it was not if it has more bytes
// than a line has room for. A write that fails is an error.
pub fn show(to: &impl Print, l: Line) -> io::Result<bool>
    ensures too_long { line_room < l.len → result ≡ Ok false }
    ensures whole { IfOk result (λ all. all ≡ nat_le l.len line_room) }
{
    let Some(bytes) = l.bytes.get(..l.len) else {
        return Ok(false);
    };
    to.write_all(bytes)?;
    Ok(true)
}
