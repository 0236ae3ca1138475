// Lists, replies and images as text for programs in other languages, as include/notation.h declares them: a slice is a pointer and a
// length. None has a precondition, and each promises what the function of crate parser, faults, printer, replies,
// refusal_words or inspection promises.
#![tactic(auto)]

ghost use Rattle.std.specs.Prelude.{◌≡◌, [], ltb, length};
ghost use Rattle.octets.specs.Bytes.{pick};
ghost use Rattle.rules.specs.Step.{step_at};
ghost use Rattle.rules.specs.Calls.{steps_in};
ghost use Rattle.notation.specs.Notation.{step_text};
ghost use Rattle.lines.specs.Lines.{written};
ghost use Rattle.notation.specs.Reading.{read};
ghost use Rattle.notation.specs.Parsing.{answer_of, written_of, parsed_numbers, expected_words};
ghost use Rattle.printer.specs.Printing.{length_answer, print_answer, printed_out, printed_numbers};
ghost use Rattle.refusal_words.specs.Words.{refusal_words};
ghost use Rattle.replies.specs.Replies.{reply_text_at};
ghost use Rattle.inspection.specs.Inspection.{inspected};
ghost use Rattle.notation_c.specs.Interface.{given_by, given_for, given_out, image_given, parsed_as};

use lines::Line;
use rules::refusals::Refusal;

// How many bytes were written, and the refusal or 0.
#[repr(C)]
#[derive(Clone, Copy)]
pub struct Given {
    pub length: usize,
    pub refusal: u8,
}

fn told(answer: Result<usize, Refusal>) -> Given
    ensures { result ≡ given_by (printed_numbers answer) }
{
    match answer {
        Ok(length) => Given { length, refusal: 0 },
        Err(refusal) => Given {
            length: 0,
            refusal: refusal.number(),
        },
    }
}

// Writes the line to the front of out; 18 where it has no room.
fn give(l: Line, out: &mut [u8]) -> Given
    ensures answer { result ≡ given_for (written l) out.old }
    ensures left { out.new ≡ given_out (written l) out.old }
{
    let bytes = l.as_bytes();
    if out.len() < bytes.len() {
        return told(Err(Refusal::WrongRoom));
    }
    octets::write(out, 0, bytes);
    told(Ok(bytes.len()))
}

// How long the list's text is: 17.
#[unsafe(no_mangle)]
pub extern "C" fn notation_length(list: &[u8]) -> Given
    ensures { result ≡ given_by (printed_numbers (length_answer list.now)) }
{
    told(printer::text_length(list))
}

// Writes the list's text to the front of out: 17, 18 with no byte changed.
#[unsafe(no_mangle)]
pub extern "C" fn notation_print(list: &[u8], out: &mut [u8]) -> Given
    ensures { (result ≡ given_by (printed_numbers (print_answer list.now out.old))) × (out.new ≡ printed_out list.now out.old) }
{
    told(printer::print(list, out))
}

// Writes the line of step i of the list, with its LF; nothing past the last step. 18 with no byte changed.
#[unsafe(no_mangle)]
pub extern "C" fn notation_step(list: &[u8], i: usize, out: &mut [u8]) -> Given
    ensures { (result ≡ given_for (pick (ltb i (steps_in list.now)) (step_text (step_at list.now i)) []) out.old)
        × (out.new ≡ given_out (pick (ltb i (steps_in list.now)) (step_text (step_at list.now i)) []) out.old) }
{
    give(printer::step_line(list, i), out)
}

// Writes the reply to step i of the list in words; nothing past the last step or reply. 18 with no byte changed.
#[unsafe(no_mangle)]
pub extern "C" fn notation_reply(list: &[u8], replied: &[u8], i: usize, out: &mut [u8]) -> Given
    ensures { (result ≡ given_for (reply_text_at list.now replied.now i) out.old)
        × (out.new ≡ given_out (reply_text_at list.now replied.now i) out.old) }
{
    give(replies::reply_line(list, replied, i), out)
}

// Writes line n of the image's text, with its LF; nothing where there is nothing to be said, and past the last line. 16, 19, 18 with no
// byte changed.
#[unsafe(no_mangle)]
pub extern "C" fn notation_image(image: &[u8], n: usize, out: &mut [u8]) -> Given
    ensures { (result ≡ image_given image.now n out.old) × (out.new ≡ given_out (inspected image.now n) out.old) }
{
    match inspection::image_line(image, n) {
        Ok(Some(line)) => give(line, out),
        Ok(None) => told(Ok(0)),
        Err(refusal) => told(Err(refusal)),
    }
}

// Writes the packed steps of a text: how many. At a fault 0, and no byte of out is changed; line, column and what was expected are lent
// numbers, 0 where there is no fault.
#[unsafe(no_mangle)]
pub extern "C" fn notation_parse(
    text: &[u8],
    out: &mut [u8],
    line: &mut usize,
    column: &mut usize,
    expected: &mut u8,
) -> usize
    ensures { (parsed_as result line.new column.new expected.new ≡ parsed_numbers (answer_of (read (length out.old) text.now)))
        × (out.new ≡ written_of (read (length out.old) text.now) out.old) }
{
    match parser::parse(text, out) {
        Ok(n) => {
            *line = 0;
            *column = 0;
            *expected = 0;
            n
        }
        Err(fault) => {
            *line = fault.line;
            *column = fault.column;
            *expected = fault.expected.number();
            0
        }
    }
}

// Writes the words of what was expected, by its number; nothing for a number that is none. 18 with no byte changed.
#[unsafe(no_mangle)]
pub extern "C" fn notation_expected_text(expected: u8, out: &mut [u8]) -> Given
    ensures { (result ≡ given_for (expected_words expected) out.old) × (out.new ≡ given_out (expected_words expected) out.old) }
{
    give(faults::expected_line(expected), out)
}

// Writes the words of a refusal, by its number; nothing for a number that is none. 18 with no byte changed.
#[unsafe(no_mangle)]
pub extern "C" fn notation_refusal_text(number: u8, out: &mut [u8]) -> Given
    ensures { (result ≡ given_for (refusal_words number) out.old) × (out.new ≡ given_out (refusal_words number) out.old) }
{
    give(refusal_words::refusal_line(number), out)
}
