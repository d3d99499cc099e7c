ghost use Rattle.std.specs.Prelude.{◌≡◌, ◌≤◌};
ghost use Rattle.script_lang.specs.Calling.{Calling};

/// The functions that a script can call. A value is one of them.
pub trait Calls: Copy + Drop {
    /// The names of the functions, which of them take a capture, and their greatest lengths.
    ghost calling: { Calling Self };

    /// Returns the function with this name.
    fn named(name: &[u8]) -> Self
        ensures { result ≡ calling.named name.now };

    /// Returns whether its call takes a capture.
    fn takes_capture(self) -> bool
        ensures { result ≡ calling.takes_capture self };

    /// Returns the greatest length of its text, in bytes.
    fn greatest_len(self) -> usize
        ensures len { result ≡ calling.length_at_most self }
        ensures short { result ≤ 4200 };
}
