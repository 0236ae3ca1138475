// The table of operations.
use crate::bytes::get;
use crate::numbers;

// What an operation is about, which names the file with its function.
#[derive(Clone, Copy, Debug, PartialEq, Eq)]
pub(crate) enum Group {
    Bytes,
    Histories,
    Maps,
    Calls,
    Runs,
    // the image has another length afterwards
    Conversions,
}

// The operations: each letter, the least and the most numbers that it takes, and its group.
const FORMS: [(u8, usize, usize, Group); 44] = [
    (b'n', 0, 0, Group::Calls),
    (b'i', 2, 2, Group::Bytes),
    (b'b', 3, 3, Group::Calls),
    (b'z', 0, 0, Group::Bytes),
    (b'p', 2, 24, Group::Bytes),
    (b'v', 2, 4, Group::Bytes),
    (b'x', 2, 2, Group::Bytes),
    (b'f', 2, 2, Group::Calls),
    (b's', 5, 5, Group::Runs),
    (b'r', 6, 6, Group::Runs),
    (b'c', 5, 5, Group::Runs),
    (b'l', 2, 24, Group::Runs),
    (b'm', 6, 6, Group::Runs),
    (b'u', 4, 4, Group::Runs),
    (b'd', 5, 5, Group::Runs),
    (b'G', 6, 6, Group::Runs),
    (b't', 2, 2, Group::Runs),
    (b'o', 1, 1, Group::Calls),
    (b'g', 1, 1, Group::Calls),
    (b'q', 1, 1, Group::Calls),
    (b'a', 1, 1, Group::Calls),
    (b'h', 1, 1, Group::Calls),
    (b'y', 1, 1, Group::Calls),
    (b'e', 1, 1, Group::Calls),
    (b'D', 1, 1, Group::Calls),
    (b'F', 1, 1, Group::Calls),
    (b'w', 2, 2, Group::Calls),
    (b'j', 1, 1, Group::Conversions),
    (b'k', 1, 1, Group::Conversions),
    (b'H', 3, 18, Group::Histories),
    (b'Z', 1, 1, Group::Histories),
    (b'R', 1, 1, Group::Histories),
    (b'K', 1, 1, Group::Histories),
    (b'N', 3, 3, Group::Histories),
    (b'S', 2, 2, Group::Histories),
    (b'C', 2, 2, Group::Histories),
    (b'I', 2, 2, Group::Histories),
    (b'T', 2, 2, Group::Histories),
    (b'W', 1, 1, Group::Histories),
    (b'P', 1, 1, Group::Histories),
    (b'Q', 1, 1, Group::Histories),
    (b'J', 3, 3, Group::Maps),
    (b'E', 1, 1, Group::Maps),
    (b'M', 3, 3, Group::Maps),
];

// The group of a line's operation, if the line is understood.
pub(crate) fn group_of(n: &[u8]) -> Option<Group> {
    let op = get(n, 0);
    let count = numbers::count(n)?;
    for (letter, least, most, group) in FORMS {
        if letter == op && least <= count && count <= most {
            return Some(group);
        }
    }
    None
}
