//! The values of a pair.

use crate::can_pair::CanPair;
use app_events::{App, Ending, Now, Want};
use uip_wire::Port;

/// The application on one connection: the second if it serves the port at which the connection opened, else the first.
#[derive(Drop)]
pub enum AppPair<A, B> {
    First(A),
    Second(B),
}

/// What the connections of each application share.
#[derive(Drop)]
pub struct PairShared<S, T> {
    pub first: S,
    pub second: T,
}

impl<A: CanPair, B: CanPair> App for AppPair<A, B> {
    ghost use Rattle.std.specs.Prelude.{◌||◌};
    ghost use Rattle.app_pair.specs.PairNumbers.{pair_numbers};
    ghost use Rattle.app_pair.specs.PairSpec.{pair_spec};
    ghost use Rattle.app_pair.specs.PairRepresents.{PairRepresents};
    ghost use Rattle.app_pair.specs.Lemmas.PairLaws.{pair_lawful, pair_same_left, pair_starts};

    type Shared = PairShared<A::Shared, B::Shared>;

    ghost Config = { A.Config × B.Config };

    ghost config = { λ shared. (A.config shared.first, B.config shared.second) };

    ghost numbers = { λ shared. pair_numbers (A.numbers shared.first) (B.numbers shared.second) };

    ghost app_spec = { λ k. pair_spec B.served (A.app_spec k.0) (B.app_spec k.1) };

    ghost represents = { PairRepresents B.served A.represents B.represents };

    ghost served = { λ port. A.served port || B.served port };

    fn serves(port: Port) -> bool {
        A::serves(port) || B::serves(port)
    }

    fn idle() -> AppPair<A, B> {
        AppPair::First(A::idle())
    }

    fn connected(&mut self, shared: &mut Self::Shared, port: Port) {
        if B::serves(port) {
            let mut app = B::idle();
            app.connected(&mut shared.second, port);
            *self = AppPair::Second(app);
        } else {
            let mut app = A::idle();
            app.connected(&mut shared.first, port);
            *self = AppPair::First(app);
        }
    }

    fn newdata(&mut self, shared: &mut Self::Shared, piece: &[u8]) {
        match self {
            AppPair::First(app) => app.newdata(&mut shared.first, piece),
            AppPair::Second(app) => app.newdata(&mut shared.second, piece),
        }
    }

    fn is_due(&self, shared: &Self::Shared) -> bool {
        match self {
            AppPair::First(app) => app.is_due(&shared.first),
            AppPair::Second(app) => app.is_due(&shared.second),
        }
    }

    fn prepare(&mut self, shared: &Self::Shared, now: &Now) {
        match self {
            AppPair::First(app) => app.prepare(&shared.first, now),
            AppPair::Second(app) => app.prepare(&shared.second, now),
        }
    }

    fn want(&self, shared: &Self::Shared) -> Want {
        match self {
            AppPair::First(app) => app.want(&shared.first),
            AppPair::Second(app) => app.want(&shared.second),
        }
    }

    fn fill(&self, shared: &Self::Shared, out: &mut [u8]) {
        match self {
            AppPair::First(app) => app.fill(&shared.first, out),
            AppPair::Second(app) => app.fill(&shared.second, out),
        }
    }

    fn acked(&mut self, shared: &mut Self::Shared, count: usize) {
        match self {
            AppPair::First(app) => app.acked(&mut shared.first, count),
            AppPair::Second(app) => app.acked(&mut shared.second, count),
        }
    }

    fn polled(&mut self, shared: &mut Self::Shared) {
        match self {
            AppPair::First(app) => app.polled(&mut shared.first),
            AppPair::Second(app) => app.polled(&mut shared.second),
        }
    }

    fn ended(&mut self, shared: &mut Self::Shared, how: Ending) {
        match self {
            AppPair::First(app) => app.ended(&mut shared.first, how),
            AppPair::Second(app) => app.ended(&mut shared.second, how),
        }
    }

    ghost lawful = { pair_lawful B.served A.represents B.represents A.app_spec B.app_spec A.can_pair B.can_pair A.lawful B.lawful };

    ghost starts = { λ k. pair_starts B.served (A.app_spec k.0) (B.app_spec k.1) (A.can_pair k.0) (B.can_pair k.1)
        (A.starts k.0) (B.starts k.1) };

    ghost same_left = { pair_same_left B.served A.represents B.represents A.app_spec B.app_spec A.same_left B.same_left };
}

/// A pair can be one of a pair, for three applications or more.
impl<A: CanPair, B: CanPair> CanPair for AppPair<A, B> {
    ghost use Rattle.app_pair.specs.Lemmas.PairLaws.{pair_again};

    ghost can_pair = { λ k. pair_again B.served (A.app_spec k.0) (B.app_spec k.1) (A.can_pair k.0).port (B.can_pair k.1).port };
}
