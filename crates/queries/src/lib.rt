// What can be asked of an image besides document 01's calls; the image is only read.
#![tactic(auto)]

ghost use Rattle.std.specs.Prelude.{false};
ghost use Rattle.std.specs.Result.{result_unwrap_or};
ghost use Rattle.rules.specs.Layout.{base};
ghost use Rattle.rules.specs.Numbers.{refusal_in, answer_in};
ghost use Rattle.rules.specs.Dependents.{no_dependents};
ghost use Rattle.rules.specs.Obstacle.{obstacle_numbers};
ghost use Rattle.rules.specs.Impediment.{impediment_numbers};
ghost use Rattle.rules.specs.Promises.{SmallestPromise, HeardPromise, CountPromise, DependentsPromise, ObstaclePromise, ImpedimentPromise};

use grounds::{all_resting, dependents_of};
use image::layout::{CREATION, FIRST_TRANSACTOR, STATE, TRANSACTOR, TRANSACTORS};
use impediments::impediment_of;
use lists::groups;
use needs::{closure, needs_of};
use obstacles::obstacle_of;
use rules::refusals::Refusal;
use rules::{Dependents, Impediment, Obstacle};

// The smallest group with the transactor that could be checkpointed now, or none exactly if there is none. Refused as 16, 19, 21 or 22.
pub fn smallest_group(image: &[u8], transactor: usize) -> Result<Option<u16>, Refusal>
    ensures { SmallestPromise base image.now transactor (refusal_in result) (answer_in result) }
{
    let formed = form::check_query(image, transactor)?;
    let needs = needs_of(&formed);
    let group = closure::closure(&needs.need, transactor);
    if groups::is_inside(group, needs.able) {
        return Ok(Some(group));
    }
    Ok(None)
}

// How many groups of that many transactors could be checkpointed now. Refused as 16, 19 or 34.
pub fn ready_count(image: &[u8], size: usize) -> Result<usize, Refusal>
    ensures { CountPromise base image.now size (refusal_in result) (result_unwrap_or result 0) }
{
    let formed = form::check_image(image)?;
    if size < 1 || TRANSACTORS < size {
        return Err(Refusal::WrongSize);
    }
    Ok(closure::count(needs_of(&formed), size))
}

// Document 02, W4, "all heard frozen": whether every entry of the transactor's state and creation maps but its own is stable. Refused as 16, 19,
// 21 or 22.
pub fn all_heard_stable(image: &[u8], transactor: usize) -> Result<bool, Refusal>
    ensures { HeardPromise base image.now transactor (refusal_in result) (result_unwrap_or result false) }
{
    form::check_query(image, transactor)?;
    let at = FIRST_TRANSACTOR + TRANSACTOR * transactor;
    if !stability::others_stable(image, at + STATE, transactor) {
        return Ok(false);
    }
    Ok(stability::others_stable(image, at + CREATION, transactor))
}

// Who rests on the transactor's present incarnation, directly and through others, who is busy with it, and how many waiting messages carry
// it. Refused as 16, 19, 21 or 22.
pub fn dependents(image: &[u8], transactor: usize) -> Result<Dependents, Refusal>
    ensures { DependentsPromise base image.now transactor (refusal_in result) (result_unwrap_or result no_dependents) }
{
    let formed = form::check_query(image, transactor)?;
    let through = closure::closure(&all_resting(&formed), transactor);
    Ok(dependents_of(&formed, transactor, through))
}

// Why the group can't be checkpointed now; none exactly if it can. Refused as 16, 19, or as the signing would be, 29, 21, 22 or 30: a number
// past the 16 bits of a group names a transactor that no session opens.
pub fn obstacle(image: &[u8], members: usize) -> Result<Option<Obstacle>, Refusal>
    ensures { ObstaclePromise base image.now members (refusal_in result) (obstacle_numbers (result_unwrap_or result None)) }
{
    let formed = form::check_image(image)?;
    let Ok(group) = u16::try_from(members) else {
        return Err(Refusal::Unopened);
    };
    group::check(&formed, group)?;
    Ok(obstacle_of(&formed, group))
}

// Why no group with the transactor could be checkpointed now, and the next transactor on a chain to the one that is in the way; none exactly
// if smallest_group has one. Refused as 16, 19, 21 or 22.
pub fn impediment(image: &[u8], transactor: usize) -> Result<Option<Impediment>, Refusal>
    ensures { ImpedimentPromise base image.now transactor (refusal_in result) (impediment_numbers (result_unwrap_or result None)) }
{
    let formed = form::check_query(image, transactor)?;
    Ok(impediment_of(&formed, transactor))
}
