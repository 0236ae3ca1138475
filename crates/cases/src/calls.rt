// Operations that call the ledger: begin, the questions, show, and the form of an image. To add one, give it a function here and its
// letter to play, and a row to the table of vectors.
use crate::print::Left;
use crate::{bytes, numbers, print};
use decisive::{Decision, receipt};
use rules::refusals::Refusal;
use rules::{Dependents, Impediment, Obstacle};
use std::io;

// n: a fresh session with the greatest limits.
fn fresh(image: &mut [u8]) -> Left {
    image.fill(0);
    match ledger::begin(image, 16, 32, 15) {
        Ok(()) => Left::Silent,
        Err(_) => Left::Bad,
    }
}

// b: begin on the image as it is, with these limits.
fn begin(
    to: &impl Print,
    image: &mut [u8],
    transactors: usize,
    messages: usize,
    checkpoints: usize,
) -> io::Result<Left> {
    let answer = ledger::begin(image, transactors, messages, checkpoints);
    print::refusal(to, &answer)?;
    Ok(Left::Compare)
}

// What a run of an empty list answers.
fn form(image: &mut [u8]) -> Result<(), Refusal> {
    let mut none = [0u8; 0];
    ledger::run(image, &[], 0, 0, &mut none)
}

// f: the same with one byte changed, which is then changed back.
fn changed(to: &impl Print, image: &mut [u8], at: usize, b: usize) -> io::Result<Left> {
    let old = usize::from(bytes::get(image, at));
    bytes::set(image, at, b);
    let answer = form(image);
    bytes::set(image, at, old);
    print::refusal(to, &answer)?;
    Ok(Left::Printed)
}

// A refusal, and a number or none.
fn found(to: &impl Print, answer: Result<Option<u16>, Refusal>) -> io::Result<Left> {
    print::refusal(to, &answer)?;
    match answer {
        Ok(Some(n)) => print::number(to, usize::from(n)),
        Ok(None) | Err(_) => to.print(" none"),
    }?;
    Ok(Left::Printed)
}

// q
fn ready(to: &impl Print, image: &[u8], size: usize) -> io::Result<Left> {
    let answer = queries::ready_count(image, size);
    print::refusal(to, &answer)?;
    print::number(to, answer.unwrap_or(0))?;
    Ok(Left::Printed)
}

// a
fn heard(to: &impl Print, image: &[u8], t: usize) -> io::Result<Left> {
    let answer = queries::all_heard_stable(image, t);
    print::refusal(to, &answer)?;
    print::truth(to, answer.unwrap_or(false))?;
    Ok(Left::Printed)
}

const NOBODY: Dependents = Dependents {
    resting: 0,
    through: 0,
    unfinished: 0,
    carried: 0,
};

// h: the refusal, and the four numbers.
fn dependents(to: &impl Print, image: &[u8], t: usize) -> io::Result<Left> {
    let answer = queries::dependents(image, t);
    print::refusal(to, &answer)?;
    let d = answer.unwrap_or(NOBODY);
    print!(to;
        " {} {} {} {}",
        d.resting, d.through, d.unfinished, d.carried
    )?;
    Ok(Left::Printed)
}

// y: the refusal, and what keeps the group from being signed, in the documents' words.
fn obstacle(to: &impl Print, image: &[u8], group: usize) -> io::Result<Left> {
    let answer = queries::obstacle(image, group);
    print::refusal(to, &answer)?;
    match answer {
        Ok(None) | Err(_) => to.print(" none"),
        Ok(Some(Obstacle::Unstable(t))) => print!(to; " not frozen {t}"),
        Ok(Some(Obstacle::Outside(t, u))) => print!(to; " outside {t} {u}"),
        Ok(Some(Obstacle::SupersededOrAnnihilated(t, u))) => print!(to; " withdrawn {t} {u}"),
    }?;
    Ok(Left::Printed)
}

// e: the refusal, and what is in the way of every group with the transactor, in the documents' words.
fn impediment(to: &impl Print, image: &[u8], t: usize) -> io::Result<Left> {
    let answer = queries::impediment(image, t);
    print::refusal(to, &answer)?;
    match answer {
        Ok(None) | Err(_) => to.print(" none"),
        Ok(Some(Impediment::Hopeless(c, u, next))) => print!(to; " hopeless {c} {u} {next}"),
        Ok(Some(Impediment::Exhausted(c, next))) => print!(to; " no signing left {c} {next}"),
        Ok(Some(Impediment::Unstable(c, next))) => print!(to; " not frozen {c} {next}"),
    }?;
    Ok(Left::Printed)
}

// D: the refusal, the outcome that the receipt of the message would reply, and the transactor whose histories decide it.
fn decision(to: &impl Print, image: &[u8], number: usize) -> io::Result<Left> {
    let answer = receipt::decide(image, number);
    print::refusal(to, &answer)?;
    let d = answer.unwrap_or(Decision {
        outcome: 0,
        transactor: 0,
    });
    print!(to; " {} {}", d.outcome, d.transactor)?;
    Ok(Left::Printed)
}

// F: the six numbers of the field that byte at belongs to.
fn field(to: &impl Print, at: usize) -> io::Result<Left> {
    let f = fields::field_at(at);
    print!(to;
        " {} {} {} {} {} {}",
        f.kind, f.holder, f.map, f.support, f.entry, f.byte
    )?;
    Ok(Left::Printed)
}

// w: the refusal, how many bytes are shown, and one of them.
fn show(to: &impl Print, image: &[u8], number: usize, at: usize) -> io::Result<Left> {
    let mut refusal: u8 = 99;
    let m = ledger::show(image, number, &mut refusal);
    let shown = m.len();
    let b = bytes::get(m, at);
    print!(to; " {refusal} {shown} {b}")?;
    Ok(Left::Printed)
}

// Those that leave the image as it is.
fn ask(to: &impl Print, op: u8, image: &[u8], a: usize, b: usize) -> io::Result<Left> {
    match op {
        b'o' => found(to, ledger::offer(image, a)),
        b'g' => found(to, queries::smallest_group(image, a)),
        b'q' => ready(to, image, a),
        b'a' => heard(to, image, a),
        b'h' => dependents(to, image, a),
        b'y' => obstacle(to, image, a),
        b'e' => impediment(to, image, a),
        b'D' => decision(to, image, a),
        b'F' => field(to, a),
        _ => show(to, image, a, b),
    }
}

pub(crate) fn play(to: &impl Print, image: &mut [u8], n: &[u8]) -> io::Result<Left> {
    let op = bytes::get(n, 0);
    let a = numbers::at(n, 1);
    let b = numbers::at(n, 2);
    match op {
        b'n' => Ok(fresh(image)),
        b'b' => begin(to, image, a, b, numbers::at(n, 3)),
        b'f' => changed(to, image, a, b),
        _ => ask(to, op, image, a, b),
    }
}
