//! The record of a script's call, from which its text is written.

ghost use Rattle.std.specs.Prelude.{◌≡◌, ℕ, ◌+◌, ◌≤◌, List, [], length, take, drop};
ghost use Rattle.app_events.specs.declared.now.Now.{Now as Snapshot};
ghost use Rattle.generators.specs.ScriptFunctions.{AreBytes, AreShort, script_functions};

use app_events::Now;
use script_lang::Calls;

/// What the text of a call is made from, captured once, when the call is next.
///
/// `output` is the text of a call: a function of its argument, the hits of the file that the argument names, the own state and
/// the snapshot. A record is captured once, and its text depends on it alone.
pub trait CallRecord: Drop {
    /// The functions that a script can call.
    type Function: Calls;

    /// What a call shows beside the hits and the snapshot.
    type Own: Drop;

    ghost output: { Self.Function → List ℕ → ℕ → List ℕ → Snapshot → List ℕ };

    /// The text of a record.
    ghost text: { Self → List ℕ };

    /// The own state as numbers.
    ghost own_numbers: { Self.Own → List ℕ };

    /// Returns the record without text.
    fn empty() -> Self
        ensures { text result ≡ [] };

    /// Captures the record of a call in this snapshot.
    fn take(
        function: Self::Function,
        argument: &[u8],
        hits: u32,
        own: &Self::Own,
        now: &Now,
    ) -> Self
        ensures { text result ≡ output function argument.now hits (own_numbers own.now) now.now };

    /// Returns the length of its text, in bytes.
    fn text_len(&self) -> usize
        ensures length { result ≡ length (text self.now) }
        ensures short { result ≤ 4200 };

    /// Writes its text from offset `at` on, to fill `out`.
    fn fill_at(&self, at: usize, out: &mut [u8])
        requires { at + length out.old ≤ length (text self.now) }
        ensures { out.new ≡ take (length out.old) (drop at (text self.now)) };

    /// No text is longer than its function's greatest length.
    ghost short: { AreShort (script_functions Self.Function.calling output) };

    /// Each text is bytes.
    ghost bytes: { AreBytes output };
}
