//! What holds for all generated text.

ghost use Rattle.generators.specs.Prelude.{TextsAreShort};

/// A text is at most as long as its function's greatest length.
pub fn texts_are_short()
    ensures { TextsAreShort }
{}
