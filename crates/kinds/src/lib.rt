// The table of the notation: the names of the kinds of step, and what stands after each. Reader and printer use it.
#![tactic(auto)]

ghost use Rattle.std.specs.Prelude.{◌≡◌, ◌<◌, ℕ, MatchOption, map};
ghost use Rattle.marks.specs.Incarnation.{same_list};
ghost use Rattle.notation.specs.Notation.{name_of, template_of, item_number};
ghost use Rattle.notation.specs.Reading.{row_named};

use notation::{Field, Item};

// The names of the 13 kinds, then raw.
const NAMES: [&[u8]; 14] = [
    b"root", b"letter", b"receive", b"new", b"send", b"read", b"write", b"freeze", b"done",
    b"fall", b"fail", b"lose", b"sign", b"raw",
];

const TAKE: Item = Item::Number(Field::Transactor);

const OTHER: Item = Item::Number(Field::Other);

const MESSAGE: Item = Item::Number(Field::Message);

const VALUE: Item = Item::Number(Field::Value);

// What stands behind each.
const TEMPLATES: [&[Item]; 14] = [
    &[Item::Text, VALUE],
    &[Item::To, TAKE, Item::Text, VALUE],
    &[MESSAGE],
    &[TAKE, Item::Text, VALUE],
    &[TAKE, Item::To, OTHER, Item::Text, VALUE],
    &[TAKE],
    &[TAKE, Item::Text, VALUE],
    &[TAKE],
    &[TAKE],
    &[TAKE],
    &[TAKE],
    &[MESSAGE],
    &[Item::Members],
    &[Item::Digits],
];

// The name of a row.
pub fn name_of(row: usize) -> &'static [u8]
    requires { row < 14 }
    ensures { result.now ≡ name_of row }
{
    NAMES[row]
}

// The template of a row.
pub fn template_of(row: usize) -> &'static [Item]
    requires { row < 14 }
    ensures { map item_number result.now ≡ template_of row }
{
    TEMPLATES[row]
}

// Whether w is the name. Byte by byte, and left at the first one that differs: `==` of slices is a call for each name as long as w.
fn is_name(name: &[u8], w: &[u8]) -> bool
    ensures { result ≡ same_list w.now name.now }
{
    name.len() == w.len() && (0..w.len()).all(|i| w[i] == name[i])
}

// The row whose name is w.
pub fn row_named(w: &[u8]) -> Option<usize>
    ensures { MatchOption result (row_named w.now ≡ 14) (λ k. (k < 14) × (row_named w.now ≡ k)) }
{
    NAMES.iter().position(|name| is_name(*name, w))
}
