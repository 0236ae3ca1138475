// A line's reader: what a line lacks first, in the order of the definitions' tests.
#![tactic(auto)]

ghost use Rattle.std.specs.Prelude.{◌≡◌, ◌≤◌, ◌<◌, length, map};
ghost use Rattle.notation.specs.Notation.{template_of, item_number};
ghost use Rattle.notation.specs.Parsing.{Answers};
ghost use Rattle.notation.specs.Reading.{member_at, more_members, closed, members_at, group_at, item, items, ended, line_at, reached};
ghost use Rattle.reader.specs.Internal.Words.{SaidBy};

use notation::{Expected, Field, Item, Lack, Place};
use rules::Step;
use scan::words;

// A step of kind 0 with nothing said.
pub const EMPTY: Step = Step {
    kind: 0,
    transactor: 0,
    other: 0,
    zero: 0,
    message: 0,
    value: 0,
};

// The step p with what the word w says for an item, which is no group; none if the word cannot stand there.
fn with_word(item: Item, w: &[u8], p: Step) -> Option<Step>
    requires { item_number item ≡ 5 → ⊥ }
    ensures { SaidBy (item_number item) w.now p result }
{
    match item {
        Item::Number(field) => {
            let n = scan::number(w, words::most_of(field))?;
            Some(words::with_field(field, n, p))
        }
        Item::To => (w == b"to".as_slice()).then_some(p),
        Item::Text => (w == b"text".as_slice()).then_some(p),
        Item::Digits => words::whole(w),
        Item::Members => None,
    }
}

// A transactor (document 01: take) that joins the group in the step's message field.
fn member_at(s: &[u8], at: usize, p: Step) -> Result<Place, Lack>
    requires { at ≤ length s.now }
    ensures { Answers result (member_at s.now at p) }
{
    let end = scan::word_end(s, at);
    let Some(t) = scan::number(&s[at..end], 15) else {
        return Err(Lack {
            at,
            step: p,
            expected: Expected::Transactor,
        });
    };
    let message = words::with_member(p.message, t);
    Ok(Place {
        at: end,
        step: Step { message, ..p },
    })
}

// The transactors that follow, each behind its comma.
fn more_members(s: &[u8], first: Place) -> Result<Place, Lack>
    requires { first.at ≤ length s.now }
    ensures { Answers result (more_members (length s.now) s.now (reached first.at first.step)) }
{
    let mut r = first;
    for _ in 0..s.len() {
        let comma = scan::skip(s, r.at);
        if scan::byte_at(s, comma) != b',' {
            return Ok(r);
        }
        r = member_at(s, scan::skip(s, comma + 1), r.step)?;
    }
    Ok(r)
}

// The brace that closes a group.
fn closed_at(s: &[u8], r: Place) -> Result<Place, Lack>
    requires { r.at ≤ length s.now }
    ensures { Answers result (closed s.now (reached r.at r.step)) }
{
    let at = scan::skip(s, r.at);
    if scan::byte_at(s, at) != b'}' {
        return Err(Lack {
            at,
            step: r.step,
            expected: Expected::CommaOrBrace,
        });
    }
    Ok(Place {
        at: at + 1,
        step: r.step,
    })
}

// What follows the opening brace.
fn members_at(s: &[u8], at: usize, p: Step) -> Result<Place, Lack>
    requires { at ≤ length s.now }
    ensures { Answers result (members_at s.now at p) }
{
    if scan::byte_at(s, at) == b'}' {
        return Ok(Place {
            at: at + 1,
            step: p,
        });
    }
    let first = member_at(s, at, p)?;
    let all = more_members(s, first)?;
    closed_at(s, all)
}

// A group (document 01: volume) in braces.
fn group_at(s: &[u8], at: usize, p: Step) -> Result<Place, Lack>
    requires { at ≤ length s.now }
    ensures { Answers result (group_at s.now at p) }
{
    if scan::byte_at(s, at) != b'{' {
        return Err(Lack {
            at,
            step: p,
            expected: Expected::Group,
        });
    }
    members_at(s, scan::skip(s, at + 1), Step { message: 0, ..p })
}

// An item, from where the reader stands.
fn item_at(s: &[u8], r: Place, wanted: Item) -> Result<Place, Lack>
    requires { r.at ≤ length s.now }
    ensures { Answers result (item s.now (reached r.at r.step) (item_number wanted)) }
{
    let at = scan::skip(s, r.at);
    if let Item::Members = wanted {
        return group_at(s, at, r.step);
    }
    let end = scan::word_end(s, at);
    let Some(step) = with_word(wanted, &s[at..end], r.step) else {
        return Err(Lack {
            at,
            step: r.step,
            expected: Expected::from(wanted),
        });
    };
    Ok(Place { at: end, step })
}

// All items of a row.
fn items_at(s: &[u8], row: usize, first: Place) -> Result<Place, Lack>
    requires { (first.at ≤ length s.now) × (row < 14) }
    ensures { Answers result (items s.now (template_of row) (reached first.at first.step)) }
{
    let mut r = first;
    for wanted in kinds::template_of(row) {
        r = item_at(s, r, *wanted)?;
    }
    Ok(r)
}

// Nothing but blanks after them.
fn ended_at(s: &[u8], r: Place) -> Result<Place, Lack>
    ensures { Answers result (ended s.now (reached r.at r.step)) }
{
    let at = scan::skip(s, r.at);
    if at < s.len() {
        return Err(Lack {
            at,
            step: r.step,
            expected: Expected::LineEnd,
        });
    }
    Ok(r)
}

// The line from its first word on, at at.
pub fn line_at(s: &[u8], at: usize) -> Result<Place, Lack>
    requires { at ≤ length s.now }
    ensures { Answers result (line_at s.now at) }
{
    let end = scan::word_end(s, at);
    let Some(row) = kinds::row_named(&s[at..end]) else {
        return Err(Lack {
            at,
            step: EMPTY,
            expected: Expected::Kind,
        });
    };
    let step = Step {
        kind: row as u8,
        ..EMPTY
    };
    let all = items_at(s, row, Place { at: end, step })?;
    ended_at(s, all)
}
