// A list's canonical text.
#![tactic(auto)]

ghost use Rattle.std.specs.Prelude.{◌≡◌, ◌+◌, ◌≤◌, ◌<◌, false, [], length, ltb, map};
ghost use Rattle.octets.specs.Bytes.{pick, put, part};
ghost use Rattle.rules.specs.Step.{step_bytes, step_at, unpack_step, pack_step};
ghost use Rattle.rules.specs.Calls.{steps_in};
ghost use Rattle.notation.specs.Notation.{template_of, field_number, item_number, item_text, items_text, row_of, step_text, text};
ghost use Rattle.printer.specs.Internal.Fields.{field_of};
ghost use Rattle.lines.specs.Lines.{written, plus, Says};
ghost use Rattle.printer.specs.Printing.{wrong_list, length_answer, print_answer, printed_out};

use lines::Line;
use lists::packed;
use notation::{Field, Item};
use rules::Step;
use rules::refusals::Refusal;

// The row of a step that cannot be said in words.
const RAW: u8 = 13;

#[tactic(auto, unfolding(notation::specs::Notation::row_of))]
fn row_of(p: Step) -> u8
    ensures { result ≡ row_of p }
{
    if lists::fields::malformed(p) {
        return RAW;
    }
    p.kind
}

// A field of the step.
#[tactic(auto, unfolding(crate::specs::Internal::Fields::field_of))]
fn field(p: Step, f: Field) -> u32
    ensures { result ≡ field_of p (field_number f) }
{
    match f {
        Field::Transactor => p.transactor as u32,
        Field::Other => p.other as u32,
        Field::Message => p.message as u32,
        Field::Value => p.value,
    }
}

fn item(l: Line, step: &[u8], p: Step, i: Item) -> Line
    requires { step.now ≡ pack_step p }
    ensures { written result ≡ plus (written l) (item_text p (item_number i)) }
{
    match i {
        Item::Number(f) => l.number(field(p, f)),
        Item::Members => l.group(p.message),
        Item::To => l.word(b"to"),
        Item::Text => l.word(b"text"),
        Item::Digits => l.hex(step),
    }
}

// All that stands after the name, with a space before each.
fn items(l: Line, step: &[u8], p: Step, row: usize) -> Line
    requires { (row < 14) × (step.now ≡ pack_step p) }
    ensures { written result ≡ plus (written l) (items_text p (template_of row)) }
{
    let mut r = l;
    for i in kinds::template_of(row) {
        r = item(r.byte(b' '), step, p, *i);
    }
    r
}

// The line of the step at at, with its LF.
fn line_at(list: &[u8], at: usize) -> Line
    requires { at + step_bytes ≤ length list.now }
    ensures { Says result (step_text (unpack_step (part at step_bytes list.now))) }
{
    let p = packed::decode(list, at);
    let row = row_of(p) as usize;
    let l = Line::EMPTY.word(kinds::name_of(row));
    items(l, &list[at..at + 8], p, row).byte(b'\n')
}

// The line of step i of a list, with its LF; empty past the last whole step.
pub fn step_line(list: &[u8], i: usize) -> Line
    ensures { Says result (pick (ltb i (steps_in list.now)) (step_text (step_at list.now i)) []) }
{
    if list.len() / 8 <= i {
        return Line::EMPTY;
    }
    line_at(list, 8 * i)
}

// How many bytes the text has. 17: the list is not whole steps, or longer than a run takes.
pub fn text_length(list: &[u8]) -> Result<usize, Refusal>
    ensures { result ≡ length_answer list.now }
{
    if lists::wrong_part(list, 0, list.len()) {
        return Err(Refusal::WrongPart);
    }
    let mut total: usize = 0;
    for i in 0..list.len() / 8 {
        total += line_at(list, 8 * i).len;
    }
    Ok(total)
}

// Writes the text from the start of out on.
fn put_text(list: &[u8], out: &mut [u8])
    requires { (wrong_list list.now ≡ false) × (length (text list.now) ≤ length out.old) }
    ensures { out.new ≡ put 0 (text list.now) out.old }
{
    let mut at: usize = 0;
    for i in 0..list.len() / 8 {
        let l = line_at(list, 8 * i);
        octets::write(out, at, l.as_bytes());
        at += l.len;
    }
}

// Writes the list's text to out, and answers how many bytes it has: 17, and 18 where out has no room for it. A refusal leaves out untouched.
pub fn print(list: &[u8], out: &mut [u8]) -> Result<usize, Refusal>
    ensures answer { result ≡ print_answer list.now out.old }
    ensures left { out.new ≡ printed_out list.now out.old }
{
    let n = text_length(list)?;
    if out.len() < n {
        return Err(Refusal::WrongRoom);
    }
    put_text(list, out);
    Ok(n)
}
