//! What holds for the grammar of images.

ghost use Rattle.std.specs.Prelude.{◌≡◌, ◌<◌, ℕ, List, slice_index, Ok};
ghost use Rattle.site_image.specs.Prelude.{File, IsImage, read_image, ConstantValues};

/// What is read without a fault is what the bytes spell, and what is spelled is read. A good image therefore represents one
/// list of files, and has no fault.
pub fn one_reading()
    ensures spelled { (bytes : List ℕ) (files : List File) → ((i : ℕ) → slice_index bytes i < 256)
        → read_image bytes ≡ Ok files → IsImage bytes files }
    ensures read { (bytes : List ℕ) (files : List File) → IsImage bytes files → read_image bytes ≡ Ok files }
{}

/// The constants have the values that the definitions name.
pub fn constant_values()
    ensures { ConstantValues }
{}
