// Texts to step lists.
#![tactic(auto)]

ghost use Rattle.std.specs.Prelude.{◌≡◌, ◌+◌, ◌≤◌, length, drop};
ghost use Rattle.octets.specs.Bytes.{pick, put};
ghost use Rattle.rules.specs.Step.{pack_step};
ghost use Rattle.notation.specs.Reading.{run, said, progress, read};
ghost use Rattle.notation.specs.Parsing.{answer_of, written_of, parsed_numbers};
ghost use Rattle.parser.specs.Internal.Parsing.{other_than, line_of, Gives, bytes_said, Stored, Gone};

use notation::{Expected, Fault, Lack};
use rules::Step;

const STEP: usize = 8;

// The first place of the byte b from from on, or the end.
fn find(s: &[u8], from: usize, b: u8) -> usize
    requires { from ≤ length s.now }
    ensures { result ≡ from + run (other_than b) (drop from s.now) }
{
    for at in from..s.len() {
        if s[at] == b {
            return at;
        }
    }
    s.len()
}

// A line without comment: its step, nothing, or what it lacks.
fn bare_line(s: &[u8], free: bool) -> Result<Option<Step>, Lack>
    ensures { Gives result (line_of free s.now) }
{
    let at = scan::skip(s, 0);
    if s.len() <= at {
        return Ok(None);
    }
    let r = reader::line_at(s, at)?;
    if !free {
        return Err(Lack {
            at,
            step: r.step,
            expected: Expected::Room,
        });
    }
    Ok(Some(r.step))
}

fn line_of(l: &[u8], free: bool) -> Result<Option<Step>, Lack>
    ensures { Gives result (line_of free (said l.now)) }
{
    let end = find(l, 0, b'#');
    bare_line(&l[..end], free)
}

fn store_step(out: &mut [u8], at: usize, p: Step)
    requires { at + 8 ≤ length out.old }
    ensures { out.new ≡ put at (pack_step p) out.old }
{
    let first = 16 * (p.kind as u32) + p.transactor as u32;
    let second = 16 * (p.other as u32) + p.zero as u32;
    let m = p.message;
    let v = p.value;
    let b = [
        (first % 256) as u8,
        (second % 256) as u8,
        (m / 256 % 256) as u8,
        (m % 256) as u8,
        (v / 256 / 256 / 256 % 256) as u8,
        (v / 256 / 256 % 256) as u8,
        (v / 256 % 256) as u8,
        (v % 256) as u8,
    ];
    octets::write(out, at, &b);
}

// The step of a line, if there is one and it is to be written. Answers where the list ends.
fn put_line(out: &mut [u8], at: usize, most: usize, said: Option<Step>, write: bool) -> usize
    requires { (pick write most 0 ≤ length out.old) × (at + length (bytes_said said) ≤ most) }
    ensures { Stored write out.old out.new at (bytes_said said) result }
{
    let Some(p) = said else {
        return at;
    };
    if write {
        store_step(out, at, p);
        return at + STEP;
    }
    at + STEP
}

// All lines of a text, into a list of at most most bytes, which is written only if write. Left at the first fault. Answers how long the
// list is.
fn read_lines(text: &[u8], most: usize, out: &mut [u8], write: bool) -> Result<usize, Fault>
    requires { pick write most 0 ≤ length out.old }
    ensures { Gone write out.old out.new (progress most text.now) result }
{
    let mut from: usize = 0;
    let mut at: usize = 0;
    let mut line: usize = 1;
    // From line to line, not byte by byte: a split at each LF would give one line more behind the last one.
    while from < text.len() {
        let end = find(text, from, b'\n');
        let free = STEP <= most - at;
        let said = match line_of(&text[from..end], free) {
            Ok(said) => said,
            Err(lack) => {
                return Err(Fault {
                    line,
                    column: lack.at + 1,
                    expected: lack.expected,
                });
            }
        };
        at = put_line(out, at, most, said, write);
        line += 1;
        from = end + 1;
    }
    Ok(at)
}

// Writes the packed steps of a text from the start of out on and answers how many, or the first fault; at a fault out is untouched.
pub fn parse(text: &[u8], out: &mut [u8]) -> Result<usize, Fault>
    ensures { (parsed_numbers result ≡ parsed_numbers (answer_of (read (length out.old) text.now))) × (out.new ≡ written_of (read (length out.old) text.now) out.old) }
{
    let most = out.len();
    read_lines(text, most, out, false)?;
    let length = read_lines(text, most, out, true)?;
    Ok(length / STEP)
}
