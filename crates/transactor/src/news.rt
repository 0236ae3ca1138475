// News of a freeze (document 02, W4): what a message's map shows stable becomes stable in the receiver's maps, in the image where both
// stand.
ghost use Rattle.std.specs.Prelude.{◌≡◌, ◌<◌};
ghost use Rattle.rules.specs.Layout.{base};
ghost use Rattle.rules.specs.State.{transactor_at, message_at, with_transactor};
ghost use Rattle.rules.specs.Rules.{informed_by};
ghost use Rattle.rules.specs.Pack.{waiting_in, pack, unpack};
ghost use Rattle.rules.specs.Internal.Good.{Good};

use image::layout::{CREATION, FIRST_TRANSACTOR, STATE, TRANSACTOR, map_at};

// State and creation maps of transactor t after the news of the message in place k.
fn inform(image: &mut [u8], t: usize, k: usize)
    requires { Good image.old × (t < base.transactors) × (k < waiting_in base image.old) }
    ensures { image.new ≡ pack base (with_transactor (unpack base image.old) t
        (informed_by base t (transactor_at (unpack base image.old) t) (message_at (unpack base image.old) k).dependences)) }
{
    let at = FIRST_TRANSACTOR + TRANSACTOR * t;
    let from = map_at(k);
    stability::inform(image, from, at + STATE, t);
    stability::inform(image, from, at + CREATION, t);
}

// The same, at once where the message's map has no entry: a letter's shows nothing.
pub fn hear(image: &mut [u8], t: usize, k: usize)
    requires { Good image.old × (t < base.transactors) × (k < waiting_in base image.old) }
    ensures { image.new ≡ pack base (with_transactor (unpack base image.old) t
        (informed_by base t (transactor_at (unpack base image.old) t) (message_at (unpack base image.old) k).dependences)) }
{
    let from = map_at(k);
    if octets::all_zero(image, from, maps::SIZE) {
        return;
    }
    inform(image, t, k);
}
