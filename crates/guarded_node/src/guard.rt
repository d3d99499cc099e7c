//! The guard: what it goes by, and what it did.

ghost use Rattle.std.specs.Prelude.{◌≡◌, None, Some, true, false};
ghost use Rattle.guarded_node.specs.Counts.{counted, initial_guard};

use crate::verdict::Verdict;
use sip_hash::Key;
use uip_wire::Port;

/// What a guard goes by.
#[derive(Clone, Copy, Drop)]
pub struct Rules {
    /// The secret. No two devices have the same, and it is never shown. If there is none, the sequence numbers are those of the node.
    pub key: Option<Key>,
    /// The port at which a connection may be given up because its host holds many slots; `None` for no port.
    pub pages: Option<Port>,
}

/// What a guard did, modulo 2^32.
#[derive(Clone, Copy, Debug, PartialEq, Eq, Drop)]
pub struct GuardCounts {
    /// The datagrams that were dropped.
    pub dropped: u32,
    /// The connections that were given up.
    pub displaced: u32,
}

impl GuardCounts {
    /// Counts a verdict.
    pub(crate) fn count(&mut self, verdict: Verdict)
        ensures { self.new ≡ counted verdict self.old }
    {
        match verdict {
            Verdict::Drop => self.dropped = self.dropped.wrapping_add(1),
            Verdict::Pass => {}
            Verdict::Displace(_) => self.displaced = self.displaced.wrapping_add(1),
        }
    }
}

/// A guard: the rules, and the counts.
#[derive(Clone, Copy, Drop)]
pub struct Guard {
    pub rules: Rules,
    pub counts: GuardCounts,
}

impl Guard {
    /// Returns a guard without a secret, which has done nothing.
    pub fn new(pages: Option<Port>) -> Guard
        ensures { result ≡ initial_guard pages }
    {
        Guard {
            rules: Rules { key: None, pages },
            counts: GuardCounts {
                dropped: 0,
                displaced: 0,
            },
        }
    }

    /// Sets the secret, if there is none, and returns whether it was set. A second secret would break the connections that are open.
    pub fn protect(&mut self, key: Key) -> bool
        ensures rest { self.new ≡ record self.old { rules = record self.old.rules { key = self.new.rules.key } } }
        ensures set { self.old.rules.key ≡ None → (self.new.rules.key ≡ Some key) × (result ≡ true) }
        ensures kept { (k : Key) → self.old.rules.key ≡ Some k → (self.new.rules.key ≡ Some k) × (result ≡ false) }
    {
        match self.rules.key {
            None => {
                self.rules.key = Some(key);
                true
            }
            Some(_) => false,
        }
    }
}
