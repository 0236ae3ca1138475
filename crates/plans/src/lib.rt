// What is left to do so that a transactor is checkpointed (document 01: a take is signed). The call writes a
// list of steps. For each transactor of the group that has to be signed together, and that is not frozen
// yet, there is a task: freeze it, or wake it by a letter and then freeze it. The signing comes last.
#![tactic(auto)]

ghost use Rattle.std.specs.Prelude.{◌≡◌, ◌+◌, ◌*◌, ◌≤◌, ◌<◌, length};
ghost use Rattle.std.specs.Result.{result_unwrap_or};
ghost use Rattle.octets.specs.Bytes.{put, chunks, zeros};
ghost use Rattle.rules.specs.Layout.{base};
ghost use Rattle.rules.specs.Numbers.{kind_number, refusal_in};
ghost use Rattle.rules.specs.Step.{pack_step};
ghost use Rattle.rules.specs.Plan.{letters, letters_fit, steps_for, steps_to_sign, mendable, plan_bytes};
ghost use Rattle.rules.specs.Promises.{PlanPromise};
ghost use Rattle.rules.specs.Internal.Closure.{Names};
ghost use Rattle.image.specs.Formed.{state_in};
ghost use Rattle.plans.specs.Internal.Written.{row_names, task_of, tasked, next_number, Written, Planned};

use grounds::members_where;
use group::own;
use image::formed::Formed;
use image::layout::TRANSACTORS;
use image::{head, limits, messages};
use impediments::impediment_in;
use impediments::ways::{Reach, reach_of};
use lists::STEP;
use lists::groups::is_named;
use rules::Impediment;
use rules::kinds::Kind;
use rules::refusals::Refusal;
use rules::statuses::Status;

// Bytes of a plan: three steps for each transactor, and the signing.
pub const PLAN: usize = 392;

// What is to be done with a transactor.
#[derive(Clone, Copy, Debug, PartialEq, Eq)]
enum Task {
    // It is at work, and a freeze is enough.
    Freeze,
    // It is idle: a letter and its receipt put it to work, and then it is frozen.
    Wake,
}

// Whether what is in the way, if anything is, can be mended by further steps: a withdrawn life in some map
// (hopeless) and a transactor that has all its signings (exhausted) can't.
fn is_mendable(o: Option<Impediment>) -> bool
    ensures { result ≡ mendable o }
{
    match o {
        None | Some(Impediment::Unstable(_, _)) => true,
        Some(Impediment::Hopeless(_, _, _) | Impediment::Exhausted(_, _)) => false,
    }
}

// The group that is to be signed: all that transactor t rests on through present incarnations (document 01:
// lives), itself among them. These are the ones whose rows name t.
fn resting_group(reach: Reach, t: usize) -> u16
    requires { t < base.transactors }
    ensures { Names (row_names reach.through t) base.transactors result }
{
    members_where(|c| is_named(reach.through[c], t))
}

// The task for transactor c: none if it is not in the group, or frozen already.
fn task_for(image: &Formed<'_>, group: u16, c: usize) -> Option<Task>
    requires { c < base.transactors }
    ensures { result ≡ task_of (state_in image.now) group c }
{
    if !is_named(group, c) || own(image, c).stable {
        return None;
    }
    match head::status(image.bytes, c) {
        Status::Idle => Some(Task::Wake),
        _ => Some(Task::Freeze),
    }
}

// How many of the group have to be woken, by a letter each.
fn count_letters(image: &Formed<'_>, group: u16) -> u16
    ensures { (result ≡ letters base (state_in image.now) group) × (result ≤ base.transactors) }
{
    let mut n: u16 = 0;
    for c in 0..TRANSACTORS {
        if let Some(Task::Wake) = task_for(image, group, c) {
            n += 1;
        }
    }
    n
}

// One more than the largest number of a message: no number is left when it is the next.
const LAST_NUMBER: u32 = 65535;

// Whether there is room for the letters: one place among those that wait, since each letter is received
// before the next one is sent, and a number for each.
fn letters_fit(image: &Formed<'_>, group: u16) -> bool
    ensures { result ≡ letters_fit base (state_in image.now) group }
{
    let n = count_letters(image, group);
    if n == 0 {
        return true;
    }
    let most = limits::messages(image.bytes) as usize;
    if most <= messages::waiting(image.bytes) {
        return false;
    }
    let next = head::next(image.bytes) as u32;
    next + n as u32 <= LAST_NUMBER
}

// Writes the step with these fields at byte `at`; its other fields are zero.
fn store(out: &mut [u8], at: usize, kind: Kind, transactor: u8, message: u32)
    requires { at + 8 ≤ length out.old }
    ensures { out.new ≡ put at (pack_step (record { kind = kind_number kind; transactor = transactor; other = 0; zero = 0; message = message; value = 0 })) out.old }
{
    let first = 16 * (kind.number() as u32) + transactor as u32;
    let b = [
        (first % 256) as u8,
        0,
        (message / 256 % 256) as u8,
        (message % 256) as u8,
        0,
        0,
        0,
        0,
    ];
    octets::write(out, at, &b);
}

// Writes the steps of the task for transactor c from byte `at` on, and says where they end. If a letter is
// among them, `number` is the one that it will have.
fn store_task(out: &mut [u8], at: usize, task: Option<Task>, c: usize, number: u32) -> usize
    requires { (at + 24 ≤ length out.old) × (c < base.transactors) }
    ensures { Written (tasked task c number) at out.old out.new result × (result ≤ at + 24) }
{
    let Some(task) = task else {
        return at;
    };
    let transactor = c as u8;
    match task {
        Task::Freeze => {
            store(out, at, Kind::Freeze, transactor, 0);
            at + STEP
        }
        Task::Wake => {
            store(out, at, Kind::Letter, transactor, 0);
            store(out, at + STEP, Kind::Receive, 0, number);
            store(out, at + 2 * STEP, Kind::Freeze, transactor, 0);
            at + 3 * STEP
        }
    }
}

// The number that the next letter will have, after the task: only waking sends one.
fn number_after(task: Option<Task>, number: u32) -> u32
    requires { number < 70000 }
    ensures { (result ≡ next_number task number) × (result ≤ number + 1) }
{
    match task {
        Some(Task::Wake) => number + 1,
        _ => number,
    }
}

// Writes the steps of the tasks for all transactors of the group, the lowest first, and says where they end.
fn store_tasks(image: &Formed<'_>, group: u16, out: &mut [u8]) -> usize
    requires { length out.old ≡ plan_bytes base }
    ensures { Written (chunks base.transactors (steps_for (state_in image.now) group)) 0 out.old out.new result × (result ≤ 384) }
{
    let mut number = head::next(image.bytes) as u32;
    let mut at: usize = 0;
    for c in 0..TRANSACTORS {
        let task = task_for(image, group, c);
        at = store_task(out, at, task, c, number);
        number = number_after(task, number);
    }
    at
}

// Writes the whole plan for the group, the signing behind the tasks, and says how many steps it has; none
// if there is no room for a letter that it needs.
fn store_plan(image: &Formed<'_>, group: u16, out: &mut [u8]) -> usize
    requires { out.old ≡ zeros (plan_bytes base) }
    ensures { Planned (steps_to_sign base (state_in image.now) group) out.new result }
{
    if !letters_fit(image, group) {
        return 0;
    }
    let at = store_tasks(image, group, out);
    store(out, at, Kind::Sign, 0, group as u32);
    at / STEP + 1
}

// Writes the steps after which the transactor is checkpointed with all that it rests on, and zeros after
// them; the answer is how many steps. It is 0 exactly if `impediment` on the same image says hopeless or
// exhausted, or, where it says anything else, if there is no room for a letter that is needed. Refused as
// 16, 19, 21, 22 or 18, and then no byte of out is changed.
pub fn plan(image: &[u8], transactor: usize, out: &mut [u8]) -> Result<usize, Refusal>
    ensures { PlanPromise base image.now transactor out.old (refusal_in result) out.new (result_unwrap_or result 0) }
{
    let formed = form::check_query(image, transactor)?;
    if out.len() != PLAN {
        return Err(Refusal::WrongRoom);
    }
    octets::clear(out, 0, PLAN);
    let reach = reach_of(&formed, transactor);
    if !is_mendable(impediment_in(&formed, reach, transactor)) {
        return Ok(0);
    }
    let group = resting_group(reach, transactor);
    Ok(store_plan(&formed, group, out))
}
