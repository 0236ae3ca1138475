// An image as text, a line at a time.
#![tactic(auto)]

ghost use Rattle.std.specs.Prelude.{◌≡◌, ◌+◌, ◌≤◌, ◌<◌, length};
ghost use Rattle.rules.specs.Layout.{base, image_bytes, map_bytes};
ghost use Rattle.rules.specs.Numbers.{status_number};
ghost use Rattle.rules.specs.State.{transactor_at, message_at};
ghost use Rattle.rules.specs.Pack.{unpack, unpack_dependences, waiting_in};
ghost use Rattle.lines.specs.Lines.{written, plus, Says};
ghost use Rattle.inspection.specs.Inspection.{piece, entries_text, list_text, incarnation_text, history_text, entry_text, values_text, status_text, transactor_text, map_text, transactor_line, message_text, message_line, limits_text, counters_text, line_text, Inspects, image_lines, message_lines};

use image::layout::{
    BEHAVIOUR, CREATION, FIRST_TRANSACTOR, SAVED, STATE, TRANSACTOR, VALUE, map_at,
};
use image::{head, limits, messages};
use lines::Line;
use marks::History;
use rules::refusals::Refusal;
use rules::statuses::Status;

// Lines of a take, of a parcel, and of an image; where those of takes and of parcels begin.
const TRANSACTOR_LINES: usize = 49;

const MESSAGE_LINES: usize = 17;

const FIRST_TRANSACTOR_LINE: usize = 2;

const FIRST_MESSAGE_LINE: usize = FIRST_TRANSACTOR_LINE + TRANSACTOR_LINES * 16;

pub const LINES: usize = FIRST_MESSAGE_LINE + MESSAGE_LINES * 32;

// A word and a number.
fn put(l: Line, w: &[u8], n: u32) -> Line
    ensures { written result ≡ plus (written l) (piece w.now n) }
{
    l.word(w).number(n)
}

// ---- marks

// The list of a history, with a comma before each entry.
fn entries(h: History) -> Line
    requires { h.count ≤ 15 }
    ensures { (written result ≡ entries_text h) × (result.len ≤ 165) }
{
    let mut r = Line::EMPTY;
    for i in 0..h.count as usize {
        r = r.byte(b',').number(h.checkpoints[i] as u32);
    }
    r
}

fn list(l: Line, h: History) -> Line
    requires { h.count ≤ 15 }
    ensures { written result ≡ plus (written l) (list_text h) }
{
    if h.count == 0 {
        return l.word(b"empty");
    }
    l.rest(entries(h))
}

// A mark without its frozen flag.
fn put_incarnation(l: Line, h: History) -> Line
    requires { h.count ≤ 15 }
    ensures { written result ≡ plus (written l) (incarnation_text h) }
{
    let listed = list(l.byte(b'('), h);
    put(listed, b"; ", h.incarnation as u32).byte(b')')
}

fn put_history(l: Line, h: History) -> Line
    requires { h.count ≤ 15 }
    ensures { written result ≡ plus (written l) (history_text h) }
{
    let lived = put_incarnation(l, h);
    if h.stable {
        return lived.word(b" frozen");
    }
    lived
}

// The mark of take u in the map at at, behind the map's name.
fn entry(image: &[u8], at: usize, name: &[u8], u: usize) -> Line
    requires { (at + map_bytes base ≤ length image.now) × (u < base.transactors) × (length name.now ≤ 20) }
    ensures { Says result (entry_text name.now u (unpack_dependences base at image.now)) }
{
    let from = at + marks::SIZE * u;
    if !packed_histories::present(image, from) {
        return Line::EMPTY;
    }
    let h = packed_histories::load(image, from);
    let named = put(Line::EMPTY, name, u as u32);
    put_history(named.byte(b' '), h).byte(b'\n')
}

// ---- takes

// The text of transactor t, and its saved text.
fn put_values(l: Line, image: &[u8], t: usize) -> Line
    requires { (length image.now ≡ image_bytes base) × (t < base.transactors) }
    ensures { written result ≡ plus (written l) (values_text (transactor_at (unpack base image.now) t)) }
{
    let at = FIRST_TRANSACTOR + TRANSACTOR * t;
    let value = octets::load32(image, at + VALUE);
    let saved = octets::load32(image, at + SAVED);
    put(l.number(value), b", saved ", saved).byte(b'\n')
}

fn put_status(l: Line, image: &[u8], t: usize, status: Status) -> Line
    requires { (length image.now ≡ image_bytes base) × (t < base.transactors) × (status_number status ≡ (transactor_at (unpack base image.now) t).status) }
    ensures { written result ≡ plus (written l) (status_text (transactor_at (unpack base image.now) t)) }
{
    match status {
        Status::Annihilated => l.word(b": vanished\n"),
        Status::Idle => put_values(l.word(b": idle, text "), image, t),
        _ => put_values(l.word(b": at work, text "), image, t),
    }
}

// The first line of take t.
fn transactor_head(image: &[u8], t: usize) -> Line
    requires { (length image.now ≡ image_bytes base) × (t < base.transactors) }
    ensures { Says result (transactor_text t (transactor_at (unpack base image.now) t)) }
{
    let status = head::status(image, t);
    if let Status::Unused = status {
        return Line::EMPTY;
    }
    put_status(put(Line::EMPTY, b"take ", t as u32), image, t, status)
}

// The mark of take u in map m of take t: 0 state, 1 creation, 2 behaviour.
fn transactor_map(image: &[u8], t: usize, m: usize, u: usize) -> Line
    requires { (length image.now ≡ image_bytes base) × (t < base.transactors) × (u < base.transactors) }
    ensures { Says result (map_text (transactor_at (unpack base image.now) t) m u) }
{
    let at = FIRST_TRANSACTOR + TRANSACTOR * t;
    match m {
        0 => entry(image, at + STATE, b"  state: take ", u),
        1 => entry(image, at + CREATION, b"  creation: take ", u),
        _ => entry(image, at + BEHAVIOUR, b"  behaviour: take ", u),
    }
}

fn transactor_line(image: &[u8], t: usize, j: usize) -> Line
    requires { (length image.now ≡ image_bytes base) × (t < base.transactors) }
    ensures { Says result (transactor_line (unpack base image.now) t j) }
{
    if j == 0 {
        return transactor_head(image, t);
    }
    let i = j - 1;
    transactor_map(image, t, i / 16, i % 16)
}

// ---- parcels

// The first line of the parcel in place k.
fn message_head(image: &[u8], k: usize) -> Line
    requires { (length image.now ≡ image_bytes base) × (k < waiting_in base image.now) }
    ensures { Says result (message_text (message_at (unpack base image.now) k)) }
{
    let number = messages::number_of(image, k) as u32;
    let to = messages::addressee(image, k) as u32;
    let text = messages::content(image, k);
    let sent = put(put(Line::EMPTY, b"parcel ", number), b" to ", to);
    put(sent, b", text ", text).byte(b'\n')
}

fn message_line(image: &[u8], k: usize, j: usize) -> Line
    requires { (length image.now ≡ image_bytes base) × (j < message_lines) }
    ensures { Says result (message_line (unpack base image.now) k j) }
{
    if messages::waiting(image) <= k {
        return Line::EMPTY;
    }
    if j == 0 {
        return message_head(image, k);
    }
    entry(image, map_at(k), b"  map: take ", j - 1)
}

// ---- the session

fn session_limits(image: &[u8]) -> Line
    requires { length image.now ≡ image_bytes base }
    ensures { Says result (limits_text (unpack base image.now)) }
{
    let transactors = limits::transactors(image) as u32;
    let messages = limits::messages(image) as u32;
    let checkpoints = limits::checkpoints(image) as u32;
    let said = put(
        put(Line::EMPTY, b"limits: takes ", transactors),
        b", parcels ",
        messages,
    );
    put(said, b", signings ", checkpoints).byte(b'\n')
}

fn counters(image: &[u8]) -> Line
    requires { length image.now ≡ image_bytes base }
    ensures { Says result (counters_text (unpack base image.now)) }
{
    let opened = head::opened(image) as u32;
    let next = head::next(image) as u32;
    put(
        put(Line::EMPTY, b"opened ", opened),
        b", next parcel ",
        next,
    )
    .byte(b'\n')
}

fn line_of(image: &[u8], n: usize) -> Line
    requires { (length image.now ≡ image_bytes base) × (n < image_lines) }
    ensures { Says result (line_text (unpack base image.now) n) }
{
    if n == 0 {
        return session_limits(image);
    }
    if n == 1 {
        return counters(image);
    }
    if n < FIRST_MESSAGE_LINE {
        let i = n - FIRST_TRANSACTOR_LINE;
        return transactor_line(image, i / TRANSACTOR_LINES, i % TRANSACTOR_LINES);
    }
    let i = n - FIRST_MESSAGE_LINE;
    message_line(image, i / MESSAGE_LINES, i % MESSAGE_LINES)
}

// Line n of the image's text, with its LF, n from 0 on; empty where there is nothing to be said, none past the last line. 16, 19.
pub fn image_line(image: &[u8], n: usize) -> Result<Option<Line>, Refusal>
    ensures { Inspects image.now n result }
{
    form::check_image(image)?;
    let past = LINES <= n;
    if past {
        return Ok(None);
    }
    Ok(Some(line_of(image, n)))
}
