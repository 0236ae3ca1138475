// Images of the old form, 22,132 bytes, to the new one and back (document 02, W6).
#![tactic(auto)]

mod low;

ghost use Rattle.std.specs.Prelude.{◌≡◌};
ghost use Rattle.rules.specs.Numbers.{refusal_in};
ghost use Rattle.convert.specs.Convert.{forward_answer, forward_image, back_answer, back_image};

use image::layout::IMAGE;
use recast::old;
use rules::refusals::Refusal;

// Writes the old image in the new form, or is refused (16, 19) with no byte changed. The image is widened whatever it holds, beside the
// destination, and its form is tested there.
pub fn forward(source: &[u8], target: &mut [u8]) -> Result<(), Refusal>
    ensures answer { refusal_in result ≡ forward_answer source.now target.old }
    ensures written { target.new ≡ forward_image source.now target.old }
{
    if source.len() != old::IMAGE {
        return Err(Refusal::WrongLength);
    }
    if target.len() != IMAGE {
        return Err(Refusal::WrongLength);
    }
    let mut wide = [0; IMAGE];
    recast::wider(source, &mut wide);
    if !form::formed(&wide) {
        return Err(Refusal::IllFormed);
    }
    target.copy_from_slice(&wide);
    Ok(())
}

// Writes the new image in the old form, or is refused (16, 19, 32) with no byte changed.
pub fn back(source: &[u8], target: &mut [u8]) -> Result<(), Refusal>
    ensures answer { refusal_in result ≡ back_answer source.now target.old }
    ensures written { target.new ≡ back_image source.now target.old }
{
    if source.len() != IMAGE {
        return Err(Refusal::WrongLength);
    }
    if target.len() != old::IMAGE {
        return Err(Refusal::WrongLength);
    }
    if !form::formed(source) {
        return Err(Refusal::IllFormed);
    }
    if !low::image(source) {
        return Err(Refusal::TooWide);
    }
    recast::narrower(source, target);
    Ok(())
}
