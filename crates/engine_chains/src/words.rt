// A walk back over the steps: sets of transactors are words of 16 bits, transactor t counting 2^t, as in a group.

// What a step did to the places at which incarnations stand: the numbers of messages, and transactors as words.
#[derive(Clone, Copy)]
pub enum Event {
    Nothing,
    Cleared(u16),
    Sent(u16, u16),
    Taken(u16, u16),
    Opens(u16, u16),
    Reads(u16),
    Writes(u16),
    Finishes(u16),
    Renewed(u16),
    Annihilated(u16),
    ClearedRenewed(u16, u16),
    ClearedAnnihilated(u16, u16),
}

// The transactors whose state, creation and behaviour are followed.
#[derive(Clone, Copy)]
pub struct Side {
    pub state: u16,
    pub creation: u16,
    pub behaviour: u16,
}

// Both sides after a step, and the transactors met at it on the left and on the right.
#[derive(Clone, Copy)]
pub struct Passed {
    pub left: Side,
    pub right: Side,
    pub met_left: u16,
    pub met_right: u16,
}

// One side of a walk.
#[derive(Clone, Copy)]
pub struct Trail {
    pub places: Side,
    // Transactors of which an incarnation was met.
    pub found: u16,
    // Those of which one was met that is another one than that of this point.
    pub past: u16,
}

// A walk, but for the messages followed. Of the last three each is a set of transactors, and only whether it is empty counts.
#[derive(Clone, Copy)]
pub struct Walker {
    pub left: Trail,
    pub right: Trail,
    // Transactors whose incarnation of this point ended in a rollback.
    pub ended: u16,
    // Those whose present incarnation may be met on the right.
    pub allowed: u16,
    // An incarnation met on the left is superseded by one met on the right.
    pub left_superseded: u16,
    // One met on the right is superseded by one met on the left.
    pub right_superseded: u16,
    // The present one was met on the right, and is not allowed.
    pub unallowed: u16,
}
