//! The images that a controller held before the present one. They exist only for contracts.
ghost use Rattle.std.specs.Prelude.{◌≡◌, [], ◌∷◌, List};
ghost use Rattle.std.specs.Borrow.{ftrue};
ghost use Rattle.ipmi_image.specs.Below.{Store};

use crate::image::Image;
use std::marker::Model;

/// The stores of images that were replaced, the latest first. They take no memory.
#[derive(Drop)]
pub(crate) struct Earlier {
    pub ghost stores: { List Store },
}

impl Model for Earlier {
    ghost also_owns = { λ _. ftrue };
}

impl Earlier {
    /// None was replaced yet.
    pub(crate) fn none() -> Earlier
        ensures { result.stores ≡ [] }
    {
        Self {}
    }

    /// This image was replaced too.
    pub(crate) fn and(_before: &Earlier, _image: &Image) -> Earlier
        ensures { result.stores ≡ _image.now ∷ _before.now.stores }
    {
        Earlier {}
    }
}
