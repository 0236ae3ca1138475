// Histories (document 01: marks): what a transactor's past looks like.
#![tactic(auto)]

ghost use Rattle.std.specs.Prelude.{◌≡◌, ◌≤◌, ◌<◌, take};
ghost use Rattle.marks.specs.Incarnation.{same_list, checkpointed_in, same_incarnation};
ghost use Rattle.marks.specs.Relation.{turned, relation_of, relation_number};
ghost use Rattle.marks.specs.History.{incarnation_of, view_of, stabilized, rolled_back, checkpointed, is_older};
ghost use Rattle.marks.specs.News.{shows_stable};
ghost use Rattle.marks.specs.Packed.{places, largest};

// Bytes of a life number, places of the list, bytes of a packed history.
pub const WIDTH: usize = 2;

pub const PLACES: usize = 15;

pub const SIZE: usize = 1 + WIDTH + WIDTH * PLACES;

// Document 01: a mark.
#[derive(Clone, Copy, Debug, PartialEq, Eq)]
pub struct History {
    // frozen
    pub stable: bool,
    // how many places of the list are used
    pub count: u8,
    // the life number n
    pub incarnation: u16,
    // the list L, then unused places
    pub checkpoints: [u16; 15],
}

// Document 02, W3: what the comparison of two histories says; of the middle four the named one is the earlier.
#[derive(Clone, Copy, Debug, PartialEq, Eq)]
pub enum Relation {
    // the same life
    Same = 0,
    // the earlier one signed
    LeftCheckpointed = 1,
    RightCheckpointed = 2,
    // the earlier one withdrawn
    LeftSuperseded = 3,
    RightSuperseded = 4,
    // marks from two different books
    Unrelated = 5,
}

impl Relation {
    // The answer's number.
    pub fn number(self) -> u8
        ensures { result ≡ relation_number self }
    {
        self as u8
    }

    // What the comparison the other way round says.
    fn turned(self) -> Relation
        ensures { result ≡ turned self }
    {
        match self {
            Relation::Same => Relation::Same,
            Relation::LeftCheckpointed => Relation::RightCheckpointed,
            Relation::RightCheckpointed => Relation::LeftCheckpointed,
            Relation::LeftSuperseded => Relation::RightSuperseded,
            Relation::RightSuperseded => Relation::LeftSuperseded,
            Relation::Unrelated => Relation::Unrelated,
        }
    }
}

impl History {
    // Document 01: the opening mark.
    pub const INITIAL: History = History {
        stable: false,
        count: 0,
        incarnation: 0,
        checkpoints: [0; 15],
    };

    // Document 01: freeze.
    pub fn stabilize(mut self) -> History
        ensures { result ≡ stabilized self }
    {
        self.stable = true;
        self
    }

    // Document 01: a fall. The ledger refuses one from the largest life number.
    pub fn rollback(mut self) -> History
        requires { self.incarnation < largest }
        ensures { result ≡ rolled_back self }
    {
        self.stable = false; // the new life is not frozen
        self.incarnation += 1;
        self
    }

    // Document 01: signing. The ledger refuses it where the session's limit is reached (30).
    pub fn checkpoint(mut self) -> History
        requires { self.count < places }
        ensures { result ≡ checkpointed self }
    {
        let at = self.count as usize;
        let n = self.incarnation;
        self.checkpoints[at] = n;
        self.count += 1;
        self.incarnation = 0;
        self.stable = false;
        self
    }

    // Whether other is the newer of the two; on a tie self is, the left one.
    pub fn older(self, other: History) -> bool
        ensures { result ≡ is_older self other }
    {
        (self.count, self.incarnation, self.stable) < (other.count, other.incarnation, other.stable)
    }

    // Whether the first n places of the two lists are the same.
    fn agrees(self, other: History, n: usize) -> bool
        requires { n ≤ places }
        ensures { result ≡ same_list (take n self.checkpoints) (take n other.checkpoints) }
    {
        self.checkpoints[..n] == other.checkpoints[..n]
    }

    // Document 01: signed, where other is the present mark of the same take.
    pub fn checkpointed_in(self, other: History) -> bool
        requires { (self.count ≤ places) × (other.count ≤ places) }
        ensures { result ≡ checkpointed_in (incarnation_of self) (incarnation_of other) }
    {
        let n = self.count as usize;
        let m = other.count as usize;
        n < m && self.incarnation == other.checkpoints[n] && self.agrees(other, n)
    }

    // Whether the two are of one life.
    pub fn same_incarnation(self, other: History) -> bool
        requires { (self.count ≤ places) × (other.count ≤ places) }
        ensures { result ≡ same_incarnation (incarnation_of self) (incarnation_of other) }
    {
        self.count == other.count
            && self.incarnation == other.incarnation
            && self.agrees(other, self.count as usize)
    }

    // Document 02, W4: whether the other one, of the same transactor, shows that this incarnation was stable. Each test fails at the
    // counts unless the lists may serve it.
    pub fn shown_stable(self, other: History) -> bool
        requires { (self.count ≤ places) × (other.count ≤ places) }
        ensures { result ≡ shows_stable (incarnation_of self) (view_of other) }
    {
        let stable = other.stable;
        self.checkpointed_in(other) || stable && self.same_incarnation(other)
    }

    // Document 02, W3: the comparison of two marks; the promise is about the answer's number.
    pub fn compare(self, other: History) -> Relation
        requires { (self.count ≤ places) × (other.count ≤ places) }
        ensures { relation_number result ≡ relation_number (relation_of (incarnation_of self) (incarnation_of other)) }
    {
        // by < and not by cmp: measured, a three-way comparison costs a receipt's compared maps a tenth more
        if other.count < self.count {
            return other.compare_longer(self).turned();
        }
        if self.count < other.count {
            return self.compare_longer(other);
        }
        if !self.agrees(other, self.count as usize) {
            return Relation::Unrelated;
        }
        if self.incarnation < other.incarnation {
            return Relation::LeftSuperseded;
        }
        if other.incarnation < self.incarnation {
            return Relation::RightSuperseded;
        }
        Relation::Same
    }

    // The same where the other one's list is the longer.
    fn compare_longer(self, other: History) -> Relation
        requires { (self.count < other.count) × (other.count ≤ places) }
        ensures { result ≡ relation_of (incarnation_of self) (incarnation_of other) }
    {
        let n = self.count as usize;
        let next = other.checkpoints[n];
        let apart = next < self.incarnation;
        // the lists last: that is the longer test
        if apart || !self.agrees(other, n) {
            return Relation::Unrelated;
        }
        if self.incarnation == next {
            return Relation::LeftCheckpointed;
        }
        Relation::LeftSuperseded
    }
}
