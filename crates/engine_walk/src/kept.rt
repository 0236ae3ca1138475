// A walker as an array of its words: an array is lent to a call by its address alone, where a struct would be copied.
ghost use Rattle.std.specs.Prelude.{◌≡◌};
ghost use Rattle.engine_chains.specs.Internal.Words.{words_of, walker_in};

use engine_chains::words::{Side, Trail, Walker};

pub const WORDS: usize = 15;

#[tactic(auto, unfolding(engine_chains::specs::Internal::Words::words_of))]
pub fn words(x: Walker) -> [u16; WORDS]
    ensures { result ≡ words_of x }
{
    let l = x.left;
    let r = x.right;
    let p = l.places;
    let q = r.places;
    [
        p.state,
        p.creation,
        p.behaviour,
        l.found,
        l.past,
        q.state,
        q.creation,
        q.behaviour,
        r.found,
        r.past,
        x.ended,
        x.allowed,
        x.left_superseded,
        x.right_superseded,
        x.unallowed,
    ]
}

#[tactic(auto, unfolding(engine_chains::specs::Internal::Words::walker_in))]
pub fn walker(w: [u16; WORDS]) -> Walker
    ensures { result ≡ walker_in w }
{
    Walker {
        left: Trail {
            places: Side {
                state: w[0],
                creation: w[1],
                behaviour: w[2],
            },
            found: w[3],
            past: w[4],
        },
        right: Trail {
            places: Side {
                state: w[5],
                creation: w[6],
                behaviour: w[7],
            },
            found: w[8],
            past: w[9],
        },
        ended: w[10],
        allowed: w[11],
        left_superseded: w[12],
        right_superseded: w[13],
        unallowed: w[14],
    }
}
