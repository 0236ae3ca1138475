// Steps, replies and answers, and document 01's numbers. The rules themselves are definitions: specs/.
#![tactic(auto)]

pub mod kinds;
pub mod outcomes;
pub mod refusals;
pub mod statuses;

// A step of a list, as document 01 packs it.
#[derive(Clone, Copy)]
pub struct Step {
    pub kind: u8,
    // Document 01: the take; of a letter, its addressee.
    pub transactor: u8,
    // The other take: the addressee of a send.
    pub other: u8,
    // Four bits that are zero.
    pub zero: u8,
    // The parcel; of a sign, the volume.
    pub message: u16,
    // The text.
    pub value: u32,
}

// A reply to a step.
#[derive(Clone, Copy)]
pub struct Reply {
    // The outcome or the refusal.
    pub outcome: u8,
    // The take acted on or opened.
    pub transactor: u8,
    // The parcel made, received or lost.
    pub message: u16,
    // The text read or received.
    pub value: u32,
}

// Of a reply, what a walk back over the steps looks at.
#[derive(Clone, Copy)]
pub struct Told {
    // The outcome or the refusal.
    pub outcome: u8,
    // The take acted on or opened.
    pub transactor: u8,
    // The parcel made, received or lost.
    pub message: u16,
}

// What rests on the present incarnation of a transactor.
#[repr(C)]
#[derive(Clone, Copy)]
pub struct Dependents {
    // The live transactors whose state or creation map has it, a bit each; itself among them.
    pub resting: u16,
    // Those, whoever rests on the present incarnation of one of those, and so on; itself among them.
    pub through: u16,
    // The busy transactors (document 01: takes at work) whose behaviour map has it.
    pub unfinished: u16,
    // How many waiting messages have it in their maps.
    pub carried: u16,
}

// Why a group can't be checkpointed now: by the transactor whose maps are looked at first, and the one whose history is found there.
#[derive(Clone, Copy, Debug, PartialEq, Eq)]
pub enum Obstacle {
    // A named transactor is not stable (document 01: frozen).
    Unstable(u8),
    // A named transactor rests on the present incarnation of one that is not named.
    Outside(u8, u8),
    // A named transactor rests on an incarnation that is superseded or annihilated (document 01: withdrawn).
    SupersededOrAnnihilated(u8, u8),
}

// Why no group with a transactor could be checkpointed: the transactor that is in the way, the asked one or one that it rests on; and last, the
// next on a chain from the asked one to that, each resting on the present incarnation of the next: asked about, it has the same in its way.
#[derive(Clone, Copy, Debug, PartialEq, Eq)]
pub enum Impediment {
    // It rests on an incarnation of the second one that is superseded or annihilated (document 01: withdrawn): it can't be checkpointed any
    // more, as long as it keeps its present incarnation.
    Hopeless(u8, u8, u8),
    // It has as many checkpoints as the session allows.
    Exhausted(u8, u8),
    // It is not stable (document 01: frozen).
    Unstable(u8, u8),
}
