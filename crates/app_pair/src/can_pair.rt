//! What an application of a pair owes in addition to `App`.

ghost use Rattle.app_pair.specs.PairSpec.{CanBePaired};

use app_events::{App, Fixed};

/// An application that can be one of a pair: no call changes the port of a connection, and only `prepare` captures.
pub trait CanPair: App {
    ghost can_pair: { (k : Self.Config) → CanBePaired (Self.app_spec k) };
}

impl CanPair for Fixed {
    ghost use Rattle.app_pair.specs.Lemmas.FixedPairs.{fixed_can_pair};

    ghost can_pair = { λ _. fixed_can_pair };
}
