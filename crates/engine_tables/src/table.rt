// What the engine keeps of a transactor and of a message number; the rules on them are definitions: specs/Internal/Tables.antt.

// Document 01: a take, without its maps.
#[derive(Clone, Copy)]
pub struct Row {
    // The number of a Status, as the refusals over plain numbers, which the ledger asks too, take it.
    pub status: u8,
    // frozen
    pub stable: bool,
    // how many signings
    pub checkpoints: u8,
    // the life number
    pub incarnation: u16,
    // the text and the saved text
    pub value: u32,
    pub saved: u32,
}

// Document 01: a parcel number.
#[derive(Clone, Copy)]
pub struct Slot {
    // no parcel waits with it
    pub missing: bool,
    // it is a letter, and carries no life
    pub letter: bool,
    pub addressee: u8,
    // the text
    pub content: u32,
}

// What a step on one transactor replies and leaves.
#[derive(Clone, Copy)]
pub struct RowEffect {
    pub outcome: u8,
    // the text read
    pub value: u32,
    pub row: Row,
}
