// The worst window of a list of replies (document 02, W13). No call on an image: it reads replies alone.
#![tactic(auto)]

ghost use Rattle.std.specs.Prelude.{◌≡◌, ◌-◌, ◌*◌, ◌≤◌, ◌<◌, length};
ghost use Rattle.rules.specs.Step.{step_bytes};
ghost use Rattle.rules.specs.Calls.{steps_in, longest};
ghost use Rattle.rules.specs.Numbers.{refusal_in};
ghost use Rattle.window.specs.Window.{rollback_at, rollbacks, worse_of, worst_up_to, window_refusal, worst_window, worst_in};

use lists::STEP;
use rules::outcomes::Outcome;
use rules::refusals::Refusal;
use std::cmp::min;

// The greatest width.
const WIDEST: usize = 256;

// The greatest count of outcomes 3 and 4 in a window, and the place of the first window that has it, in replies from 0.
#[repr(C)]
#[derive(Clone, Copy)]
pub struct Worst {
    pub count: usize,
    pub place: usize,
}

// 1 if reply i has outcome 3 or 4, else 0.
#[tactic(auto, unfolding(crate::specs::Window::rollback_at, crate::specs::Window::is_rollback))]
fn rollback(replies: &[u8], i: usize) -> usize
    requires { step_bytes * i < length replies.now }
    ensures { result ≡ rollback_at replies.now i }
{
    let outcome = replies[STEP * i];
    usize::from(outcome == Outcome::FallenBack.number() || outcome == Outcome::Vanished.number())
}

// How many of the first n replies have outcome 3 or 4. A `for` and no chain: the laws of the count speak of places.
fn first(replies: &[u8], n: usize) -> usize
    requires { (step_bytes * n ≤ length replies.now) × (length replies.now ≤ longest) }
    ensures { result ≡ rollbacks replies.now 0 n }
{
    let mut count = 0;
    for i in 0..n {
        count += rollback(replies, i);
    }
    count
}

// The worst so far, or the window at place with this count, if that is greater.
#[tactic(auto, unfolding(crate::specs::Window::worse_of))]
fn worse(best: Worst, count: usize, place: usize) -> Worst
    ensures { result ≡ worse_of best count place }
{
    if best.count < count {
        return Worst { count, place };
    }
    best
}

// The worst of the windows of so many replies, of a list that has at least as many. The count moves along with the window: the next
// reply comes in, the first one goes out.
fn slide(replies: &[u8], width: usize) -> Worst
    requires { (step_bytes * width ≤ length replies.now) × (length replies.now ≤ longest) }
    ensures { result ≡ worst_up_to replies.now width (steps_in replies.now - width) }
{
    let n = replies.len() / STEP;
    let mut count = first(replies, width);
    let mut best = Worst { count, place: 0 };
    for place in 0..n - width {
        count = count + rollback(replies, place + width) - rollback(replies, place);
        best = worse(best, count, place + 1);
    }
    best
}

// The refusals, 17 or 35.
#[tactic(auto, unfolding(crate::specs::Window::window_refusal, crate::specs::Window::wrong_width))]
fn check(replies: &[u8], width: usize) -> Result<(), Refusal>
    ensures { refusal_in result ≡ window_refusal replies.now width }
{
    if lists::wrong_part(replies, 0, replies.len()) {
        return Err(Refusal::WrongPart);
    }
    if width < 1 || WIDEST < width {
        return Err(Refusal::WrongWidth);
    }
    Ok(())
}

// The greatest count of outcomes 3 and 4 over every window of width successive replies, and the place of the first window that has
// it; a list shorter than the width is one window. Refused for 17 or 35.
pub fn worst_window(replies: &[u8], width: usize) -> Result<Worst, Refusal>
    ensures refused { refusal_in result ≡ window_refusal replies.now width }
    ensures worst { worst_in result ≡ worst_window replies.now width }
{
    check(replies, width)?;
    let n = replies.len() / STEP;
    Ok(slide(replies, min(n, width)))
}
