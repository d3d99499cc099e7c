//! The trait of a medium.

ghost use Rattle.std.specs.Prelude.{[], ◌≡◌, ◌<◌, ◌≤◌, ◌++◌, List, ℕ, length, take, OnOk, OnErr};
ghost use Rattle.std.specs.Io.KnownBytes.{Appends};
ghost use Rattle.uip_edge.specs.Prelude.{HasCause, AppendsPrefix};
ghost use Rattle.line_medium.specs.Media.{MediumSpec, ShowsBrought, ReportsBrought, all_decoded, all_written, acts_among};

use uip_edge::{Failed, Sink};

/// What the last byte of a run completed.
#[derive(Clone, Copy, Debug, PartialEq, Eq)]
pub enum Decoded {
    /// Nothing.
    Nothing,
    /// A datagram of this many bytes, 1 to 1500.
    Datagram(usize),
    /// A frame that is too long for a datagram.
    Overlong,
    /// An event of the medium's own, at which it writes this many bytes.
    Own(usize),
}

/// The number of bytes consumed, and what the last of them completed.
#[derive(Clone, Copy, Debug, PartialEq, Eq)]
pub struct DecodedRun {
    pub count: usize,
    pub brought: Decoded,
}

/// The link layer of a node: decodes datagrams from the bytes of a line, encodes datagrams, and may act by itself. It never sees the node.
pub trait Medium {
    /// The events of its own.
    ghost Act: { Type 0 };

    /// Its configuration, which no call changes.
    ghost Config: { Type 0 };

    /// Its specification, for a configuration.
    ghost spec: { Self.Config → MediumSpec Self.Act };

    /// It has this configuration, and was fed these bytes.
    ghost fed: { Self → Self.Config → List ℕ → Type 0 };

    /// It has this configuration, and made these events of its own.
    ghost did: { Self → Self.Config → List Self.Act → Type 0 };

    /// The bytes that can be read from it, and whether this many bytes can.
    ghost shown: { Self → List ℕ };

    ghost shows: { Self → ℕ → Type 0 };

    /// Feeds a prefix of the bytes, of which only the last one may complete something.
    fn feed_run(&mut self, bytes: &[u8]) -> DecodedRun
        requires { 0 < length bytes.now }
        ensures some { 0 < result.count }
        ensures within { result.count ≤ length bytes.now }
        ensures fed { (k : Self.Config) (before : List ℕ) → fed self.old k before
            → fed self.new k (before ++ take result.count bytes.now) }
        ensures reported { (k : Self.Config) (before : List ℕ) → fed self.old k before → ReportsBrought (spec k)
            (shown self.new) result.brought (all_decoded (spec k) before (take result.count bytes.now)) }
        ensures did { (k : Self.Config) (before : List ℕ) (acts : List Self.Act)
            → fed self.old k before → did self.old k acts
            → did self.new k (acts ++ acts_among (all_decoded (spec k) before (take result.count bytes.now))) }
        ensures shows { ShowsBrought (shows self.new) (shown self.new) result.brought };

    /// Returns the bytes of what was completed.
    fn shown(&self, count: usize) -> &[u8]
        requires { shows self.now count }
        ensures { result.now ≡ shown self.now };

    /// Counts a tick, at which it writes nothing.
    fn tick(&mut self)
        ensures silent { (k : Self.Config) → all_written (spec k) (spec k).at_tick ≡ [] }
        ensures fed { (k : Self.Config) (before : List ℕ) → fed self.old k before → fed self.new k before }
        ensures did { (k : Self.Config) (acts : List Self.Act) → did self.old k acts
            → did self.new k (acts ++ (spec k).at_tick) };

    /// Writes the text of a datagram. On failure a prefix of the text was written, and the text is not empty.
    fn send<K: Sink>(&mut self, datagram: &[u8], sink: &mut K) -> Result<(), Failed>
        ensures fed { (k : Self.Config) (before : List ℕ) → fed self.old k before → fed self.new k before }
        ensures did { (k : Self.Config) (acts : List Self.Act) → did self.old k acts → did self.new k acts }
        ensures whole { OnOk result ((k : Self.Config) (acts : List Self.Act) → did self.old k acts → Appends
            (K.written sink.old) (K.written sink.new) ((spec k).text acts datagram.now)) }
        ensures prefix { OnErr result ((k : Self.Config) (acts : List Self.Act) → did self.old k acts → AppendsPrefix
            (K.written sink.old) (K.written sink.new) ((spec k).text acts datagram.now)) }
        ensures some { OnErr result ((k : Self.Config) (acts : List Self.Act) → did self.old k acts
            → 0 < length ((spec k).text acts datagram.now)) }
        ensures cause { HasCause (K.faults sink.old) (K.faults sink.new) result };
}
