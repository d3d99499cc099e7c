//! Applications of which some connections are of `OwnApp`.

ghost use Rattle.std.specs.Prelude.{◌≡◌, ℕ, List, MatchOption, false, true};
ghost use Rattle.tcp_machine.specs.Prelude.{Connection};
ghost use Rattle.own_app.specs.Prelude.{message_of, write_message};
ghost use Rattle.own_node.specs.Messages.{SeesOwn, is_open_state};

use app_events::App;
use app_pair::{AppPair, CanPair};
use own_app::{Message, OwnApp, OwnShared};

/// An application of which some connections are of `OwnApp`.
pub trait HoldsOwn: App {
    /// A connection, as `OwnApp` sees it. One that is open for another application is CLOSED.
    ghost seen: { Connection → Connection };

    /// A change of the numbers of `OwnApp`, among the numbers of this application.
    ghost among: { (List ℕ → List ℕ) → List ℕ → List ℕ };

    /// Returns the value of `OwnApp`, if the connection is of it.
    fn own(&self) -> Option<&OwnApp>
        ensures { (k : Self.Config) (c : Connection) → (is_open_state c.state ≡ true → Self.represents self.now k c.part)
            → MatchOption result (is_open_state (seen c).state ≡ false) (λ own. SeesOwn own.now (seen c) c) };

    /// Puts a message in the place of the newest.
    fn put(shared: &mut Self::Shared, message: Message)
        ensures same { Self.config shared.new ≡ Self.config shared.old }
        ensures numbers { Self.numbers shared.new ≡ among (write_message (message_of message)) (Self.numbers shared.old) };
}

impl HoldsOwn for OwnApp {
    ghost seen = { λ c. c };

    ghost among = { λ change. change };

    fn own(&self) -> Option<&OwnApp> {
        Some(self)
    }

    fn put(shared: &mut OwnShared, message: Message) {
        shared.message = message;
    }
}

impl<A: CanPair> HoldsOwn for AppPair<A, OwnApp> {
    ghost use Rattle.app_pair.specs.PairNumbers.{change_own};
    ghost use Rattle.own_node.specs.Messages.{seen_in_pair};

    ghost seen = { seen_in_pair };

    ghost among = { change_own true };

    fn own(&self) -> Option<&OwnApp> {
        match self {
            AppPair::First(_) => None,
            AppPair::Second(app) => Some(app),
        }
    }

    fn put(shared: &mut Self::Shared, message: Message) {
        shared.second.message = message;
    }
}
