//! The bytes of an image, wherever they are.

ghost use Rattle.std.specs.Prelude.{◌≡◌, ℕ, List};

/// What holds the bytes of an image.
pub trait Image: Drop {
    /// The bytes.
    ghost held: { Self → List ℕ };

    /// Returns the bytes of the image.
    fn bytes(&self) -> &[u8]
        ensures { result.now ≡ held self.now };
}

impl Image for Vec<u8> {
    ghost held = { λ image. image.items };

    fn bytes(&self) -> &[u8] {
        self.as_slice()
    }
}

impl Image for &'static [u8] {
    ghost held = { λ image. image.now };

    fn bytes(&self) -> &[u8] {
        *self
    }
}
