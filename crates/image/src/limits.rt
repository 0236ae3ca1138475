// What the rules refuse to go beyond, each with its refusal: the session's own limits, as the image stores them.
ghost use Rattle.std.specs.Prelude.{◌≡◌, length};
ghost use Rattle.octets.specs.Bytes.{put};
ghost use Rattle.rules.specs.Layout.{base, limits_of, head_bytes, image_bytes};
ghost use Rattle.rules.specs.Pack.{pack_limits, unpack};

use crate::layout::{HEAD, MOST_CHECKPOINTS, MOST_MESSAGES, MOST_TRANSACTORS};

// 25: transactors opened.
pub fn transactors(image: &[u8]) -> u8
    requires { length image.now ≡ image_bytes base }
    ensures { result ≡ (unpack base image.now).limits.transactors }
{
    image[MOST_TRANSACTORS]
}

// 26: messages waiting.
pub fn messages(image: &[u8]) -> u8
    requires { length image.now ≡ image_bytes base }
    ensures { result ≡ (unpack base image.now).limits.messages }
{
    image[MOST_MESSAGES]
}

// 30: checkpoints of one transactor.
pub fn checkpoints(image: &[u8]) -> u8
    requires { length image.now ≡ image_bytes base }
    ensures { result ≡ (unpack base image.now).limits.checkpoints }
{
    image[MOST_CHECKPOINTS]
}

pub fn store(image: &mut [u8], transactors: u8, messages: u8, checkpoints: u8)
    requires { length image.old ≡ image_bytes base }
    ensures { image.new ≡ put head_bytes (pack_limits base (limits_of transactors messages checkpoints)) image.old }
{
    let four = [transactors, messages, checkpoints, 0];
    octets::write(image, HEAD, &four);
}
