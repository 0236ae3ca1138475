// Dependence maps (document 01: maps): at most one history for each transactor.
#![tactic(auto)]

ghost use Rattle.std.specs.Prelude.{◌≡◌, ◌<◌};
ghost use Rattle.marks.specs.Packed.{places};
ghost use Rattle.maps.specs.Map.{empty_map, with_entry, singleton, is_empty, chooses_right, join_of};
ghost use Rattle.maps.specs.Packed.{entries};

use marks::History;

// One entry for each transactor, and the bytes of a packed map.
pub const ENTRIES: usize = 16;

pub const SIZE: usize = marks::SIZE * ENTRIES;

// Document 01: a map. A history whose place is not held is the initial one.
// Two lists, and no list of options: the documents' definitions and theorems stand on them (with_entry, held_at, history_at).
#[derive(Clone, Copy)]
pub struct DependenceMap {
    pub held: [bool; ENTRIES],
    pub histories: [History; ENTRIES],
}

// A packed map and a map, compared both ways: whether some transactor has unrelated histories in the two, the first whose history
// in the packed one is superseded, if there is one, and the first whose own is.
#[derive(Clone, Copy)]
pub struct Comparisons {
    pub unrelated: bool,
    pub packed: Option<usize>,
    pub own: Option<usize>,
}

impl DependenceMap {
    // No entry.
    pub const EMPTY: DependenceMap = DependenceMap {
        held: [false; ENTRIES],
        histories: [History::INITIAL; ENTRIES],
    };

    // The empty map.
    pub fn empty() -> DependenceMap
        ensures { result ≡ empty_map places entries }
    {
        DependenceMap::EMPTY
    }

    // The map with h for transactor i.
    pub fn with(mut self, i: usize, h: History) -> DependenceMap
        requires { i < entries }
        ensures { result ≡ with_entry self i h }
    {
        self.held[i] = true;
        self.histories[i] = h;
        self
    }

    // The map of h for transactor i alone.
    pub fn one(i: usize, h: History) -> DependenceMap
        requires { i < entries }
        ensures { result ≡ singleton places entries i h }
    {
        DependenceMap::empty().with(i, h)
    }

    // Whether there is no entry.
    pub fn is_empty(self) -> bool
        ensures { result ≡ is_empty entries self }
    {
        self.held.iter().all(|held| !*held)
    }

    // Entry by entry the newer of the two; on a tie that of self.
    pub fn join(mut self, other: DependenceMap) -> DependenceMap
        ensures { result ≡ join_of entries self other }
    {
        for i in 0..ENTRIES {
            let p = self.held[i];
            let x = self.histories[i];
            let q = other.held[i];
            let y = other.histories[i];
            if chooses_right(p, x, q, y) {
                self.held[i] = q;
                self.histories[i] = y;
            }
        }
        self
    }

    // Joined with the map of h for transactor i alone.
    pub fn join_entry(mut self, i: usize, h: History) -> DependenceMap
        requires { i < entries }
        ensures { result ≡ join_of entries self (singleton places entries i h) }
    {
        let p = self.held[i];
        let x = self.histories[i];
        if chooses_right(p, x, true, h) {
            self.held[i] = true;
            self.histories[i] = h;
        }
        self
    }
}

// Whether the join's entry is the right one.
pub fn chooses_right(p: bool, x: History, q: bool, y: History) -> bool
    ensures { result ≡ chooses_right p x q y }
{
    q && (!p || x.older(y))
}
