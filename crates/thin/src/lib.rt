// Document 02, W12: a step list without its refused steps, and without the reads whose map is emptied unused.
#![tactic(auto)]

mod lookahead;

ghost use Rattle.std.specs.Prelude.{◌≡◌, ◌+◌, ◌*◌, ◌/◌, ◌≤◌, ◌<◌, length};
ghost use Rattle.rules.specs.Layout.{base};
ghost use Rattle.rules.specs.Numbers.{refusal_in};
ghost use Rattle.rules.specs.Step.{step_bytes};
ghost use Rattle.rules.specs.Calls.{run_answer, run_replies};
ghost use Rattle.thin.specs.Thin.{thin_refusal, thin_out, thin_count, count_in};
ghost use Rattle.thin.specs.Internal.Gather.{Placed, Gathered, Shortened};

use image::layout::IMAGE;
use lists::{STEP, packed};
use lookahead::Lookahead;
use rules::refusals::Refusal;

// Step i, if it is kept, in front of the steps from place k on; the first place of them then.
fn place(list: &[u8], out: &mut [u8], i: usize, k: usize, kept: bool) -> usize
    requires { (i < k) × (step_bytes * k ≤ length out.old) × (step_bytes * i + step_bytes ≤ length list.now) }
    ensures { Placed list.now i kept k out.old result out.new }
{
    if !kept {
        return k;
    }
    let at = STEP * i;
    let end = at + STEP;
    octets::write(out, STEP * (k - 1), &list[at..end]);
    k - 1
}

// Moves the steps that are kept to the end of out, which holds their replies; how many there are.
fn gather(list: &[u8], out: &mut [u8]) -> usize
    requires { (length out.old ≡ length list.now) × (step_bytes * (length list.now / step_bytes) ≡ length list.now) }
    ensures { Gathered list.now out.old out.new result }
{
    let n = list.len() / STEP;
    let mut ahead = Lookahead::NONE;
    let mut k = n;
    for i in (0..n).rev() {
        let p = packed::decode(list, STEP * i);
        let outcome = out[STEP * i];
        let kept = ahead.keeps(p, outcome);
        k = place(list, out, i, k, kept);
        ahead = ahead.with(p, outcome);
    }
    n - k
}

// Of the replies in out, the steps that are kept at its start, and zeros after them; how many.
fn shorten(list: &[u8], out: &mut [u8]) -> usize
    requires { (length out.old ≡ length list.now) × (step_bytes * (length list.now / step_bytes) ≡ length list.now) }
    ensures { Shortened list.now out.old out.new result }
{
    let n = gather(list, out);
    let size = STEP * n;
    let gap = list.len() - size;
    octets::remove(out, 0, gap, size);
    n
}

// Runs the part on a copy of the image, as a call does: the refusals, and the replies in out. What is refused without a look into the image
// is refused before it is copied. So compiled, the copy is one memcpy, and the zeros are not stored first.
fn run_copy(
    image: &[u8],
    list: &[u8],
    start: usize,
    end: usize,
    out: &mut [u8],
) -> Result<(), Refusal>
    ensures { (refusal_in result ≡ run_answer base image.now list.now start end out.old)
        × (out.new ≡ run_replies base image.now list.now start end out.old) }
{
    if image.len() != IMAGE {
        return Err(Refusal::WrongLength);
    }
    if lists::wrong_part(list, start, end) {
        return Err(Refusal::WrongPart);
    }
    if out.len() != end - start {
        return Err(Refusal::WrongRoom);
    }
    let mut copy = [0u8; IMAGE];
    copy.copy_from_slice(image);
    ledger::run(&mut copy, list, start, end, out)
}

// Writes the short list of the steps from start up to end, with zeros after it: how many steps are kept. Refused, for 16, 17, 18 or 19,
// no byte of out is changed.
pub fn thin(
    image: &[u8],
    list: &[u8],
    start: usize,
    end: usize,
    out: &mut [u8],
) -> Result<usize, Refusal>
    ensures { (refusal_in result ≡ thin_refusal base image.now list.now start end out.old)
        × (out.new ≡ thin_out base image.now list.now start end out.old)
        × (count_in result ≡ thin_count base image.now list.now start end out.old) }
{
    run_copy(image, list, start, end, out)?;
    Ok(shorten(&list[start..end], out))
}
