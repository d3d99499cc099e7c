//! The trait of an application, one value for each connection.

ghost use Rattle.std.specs.Prelude.{◌≡◌, ℕ, List, length, take, Bool, false};
ghost use Rattle.app_events.specs.AppSpec.{AppState, AppSpec, text_left, IsRepresented, CanSupply};
ghost use Rattle.app_events.specs.Laws.{IsLawful, StartsAnew};

use crate::ending::Ending;
use crate::now::Now;
use crate::want::Want;
use uip_wire::Port;

/// An application, as its connection calls it.
///
/// A value represents an abstract state: plain data with what was delivered, captured and acknowledged. `app_spec` defines what
/// each call does to that state; a clause holds for every state that the value represents. `config` is what no call changes in
/// `Shared`, and `numbers` what calls may change in it. A call for one connection changes no other connection's value.
pub trait App: Drop {
    /// What the values of all connections share.
    type Shared: Drop;

    /// What no call changes in the shared value.
    ghost Config: { Type 0 };

    ghost config: { Self.Shared → Self.Config };

    /// What calls may change in the shared value.
    ghost numbers: { Self.Shared → List ℕ };

    /// What each call does, over plain data.
    ghost app_spec: { Self.Config → AppSpec };

    /// The abstract states that a value represents.
    ghost represents: { Self → Self.Config → AppState → Type 0 };

    /// The ports at which the application can be reached.
    ghost served: { ℕ → Bool };

    /// Returns whether a connection may be opened at this port.
    fn serves(port: Port) -> bool
        ensures { result ≡ served port.0 };

    /// Returns a value for a connection that is not open. No clause states anything of it.
    fn idle() -> Self;

    /// Begins a connection: nothing is delivered, captured or acknowledged, whatever the value was before.
    fn connected(&mut self, shared: &mut Self::Shared, port: Port)
        ensures same { config shared.new ≡ config shared.old }
        ensures part { represents self.new (config shared.old) ((app_spec (config shared.old)).connected (numbers shared.old) port.0).part }
        ensures numbers { numbers shared.new ≡ ((app_spec (config shared.old)).connected (numbers shared.old) port.0).numbers };

    /// Delivers the next bytes from the peer.
    fn newdata(&mut self, shared: &mut Self::Shared, piece: &[u8])
        requires { IsRepresented represents self.old (config shared.old) }
        ensures same { config shared.new ≡ config shared.old }
        ensures part { (p : AppState) → represents self.old (config shared.old) p
            → represents self.new (config shared.old) ((app_spec (config shared.old)).newdata (numbers shared.old) p piece.now).part }
        ensures numbers { (p : AppState) → represents self.old (config shared.old) p
            → numbers shared.new ≡ ((app_spec (config shared.old)).newdata (numbers shared.old) p piece.now).numbers };

    /// Returns whether `prepare` may change something. If not, `prepare` changes nothing for any `Now`, and need not be called.
    fn is_due(&self, shared: &Self::Shared) -> bool
        requires { IsRepresented represents self.now (config shared.now) }
        ensures not_due { result ≡ false → (p : AppState) (now : Now) → represents self.now (config shared.now) p
            → (app_spec (config shared.now)).prepare (numbers shared.now) p now ≡ p }
    {
        true
    }

    /// Takes a capture, if the text that comes next needs one. Called before `want`.
    fn prepare(&mut self, shared: &Self::Shared, now: &Now)
        requires { IsRepresented represents self.old (config shared.now) }
        ensures { (p : AppState) → represents self.old (config shared.now) p
            → represents self.new (config shared.now) ((app_spec (config shared.now)).prepare (numbers shared.now) p now.now) };

    /// Returns what to send next. Called if nothing is outstanding.
    fn want(&self, shared: &Self::Shared) -> Want
        requires { IsRepresented represents self.now (config shared.now) }
        ensures { (p : AppState) → represents self.now (config shared.now) p
            → result ≡ (app_spec (config shared.now)).want (numbers shared.now) p };

    /// Writes the text after the acknowledged offset, as much as `out` holds.
    fn fill(&self, shared: &Self::Shared, out: &mut [u8])
        requires { CanSupply app_spec represents self.now (config shared.now) (length out.old) }
        ensures { (p : AppState) → represents self.now (config shared.now) p
            → out.new ≡ take (length out.old) (text_left (app_spec (config shared.now)) p) };

    /// Reports that `count` bytes of the text are acknowledged.
    fn acked(&mut self, shared: &mut Self::Shared, count: usize)
        requires { CanSupply app_spec represents self.old (config shared.old) count }
        ensures same { config shared.new ≡ config shared.old }
        ensures part { (p : AppState) → represents self.old (config shared.old) p
            → represents self.new (config shared.old) ((app_spec (config shared.old)).acked (numbers shared.old) p count).part }
        ensures numbers { (p : AppState) → represents self.old (config shared.old) p
            → numbers shared.new ≡ ((app_spec (config shared.old)).acked (numbers shared.old) p count).numbers };

    /// Reports a tick with nothing outstanding.
    fn polled(&mut self, shared: &mut Self::Shared)
        requires { IsRepresented represents self.old (config shared.old) }
        ensures same { config shared.new ≡ config shared.old }
        ensures part { (p : AppState) → represents self.old (config shared.old) p
            → represents self.new (config shared.old) ((app_spec (config shared.old)).polled (numbers shared.old) p).part }
        ensures numbers { (p : AppState) → represents self.old (config shared.old) p
            → numbers shared.new ≡ ((app_spec (config shared.old)).polled (numbers shared.old) p).numbers };

    /// Reports that the connection ended while the application could still send. No clause states anything of the value after this.
    fn ended(&mut self, shared: &mut Self::Shared, how: Ending)
        requires { IsRepresented represents self.old (config shared.old) }
        ensures same { config shared.new ≡ config shared.old }
        ensures numbers { (p : AppState) → represents self.old (config shared.old) p
            → numbers shared.new ≡ (app_spec (config shared.old)).ended (numbers shared.old) p how };

    /// The definitions satisfy the laws of an application.
    ghost lawful: { (a : Self) (k : Self.Config) → IsLawful (app_spec k) (represents a k) };

    ghost starts: { (k : Self.Config) → StartsAnew (app_spec k) };

    /// All states that a value represents have the same text after the offset.
    ghost same_left: { (a : Self) (k : Self.Config) (p q : AppState) → represents a k p → represents a k q
        → text_left (app_spec k) p ≡ text_left (app_spec k) q };
}
