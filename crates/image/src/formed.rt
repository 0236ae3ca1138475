// A well-formed image that is lent for reading: whoever holds one need not ask for the form again.
ghost use Rattle.std.specs.Prelude.{ℕ, ◌≡◌, ◌<◌, length, slice_index, true};
ghost use Rattle.rules.specs.Layout.{base, image_bytes};
ghost use Rattle.rules.specs.Form.{well_formed};

#[derive(Clone, Copy)]
pub struct Formed<'a> {
    pub bytes: &'a [u8],
    ghost octets: { (i : ℕ) → slice_index bytes.now i < 256 },
    ghost long: { length bytes.now ≡ image_bytes base },
    ghost formed: { well_formed base bytes.now ≡ true },
}
