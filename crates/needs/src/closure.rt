// Groups, by what each transactor needs: the least with one of them, and how many are ready.
ghost use Rattle.std.specs.Prelude.{◌≡◌, ◌<◌, MatchOption};
ghost use Rattle.rules.specs.Layout.{base};
ghost use Rattle.rules.specs.Internal.Closure.{met_count, Closed, Closure};
ghost use Rattle.needs.specs.Internal.Asking.{Lacks};

use crate::meets;
use image::layout::TRANSACTORS;
use lists::groups::{Needs, is_inside, is_named};

// The first transactor that the group names and that needs one it does not name.
fn lacking(need: &[u16; 16], group: u16) -> Option<usize>
    ensures { MatchOption result (Closed need.now group) (Lacks need.now group) }
{
    (0..TRANSACTORS).find(|u| is_named(group, *u) && !is_inside(need[*u], group))
}

// Transactor t, and whom a named one needs: added while one lacks somebody.
pub fn closure(need: &[u16; 16], t: usize) -> u16
    requires { t < base.transactors }
    ensures { Closure need.now t result }
{
    let mut group = 1u16 << t;
    // No index is counted: each turn the group grows.
    while let Some(u) = lacking(need, group) {
        group |= need[u];
    }
    group
}

// How many groups of that many transactors have all that they need. The groups of able ones alone, from that of all down: (group - 1) & able
// is the next.
pub fn count(needs: Needs, size: usize) -> usize
    requires { 0 < size }
    ensures { result ≡ met_count needs.need needs.able size }
{
    let able = needs.able;
    let mut n: usize = 0;
    let mut group = able;
    // No index is counted: each turn the group falls.
    while 0 < group {
        if u32::count_ones(group as u32) as usize == size && meets(needs, group) {
            n += 1;
        }
        group = (group - 1) & able;
    }
    n
}
