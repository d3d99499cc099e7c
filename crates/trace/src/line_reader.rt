ghost use Rattle.std.specs.Prelude.{◌≡◌, ◌<◌, ◌≤◌, ◌+◌, ◌^◌, ◌++◌, [], ◌∷◌, List, ℕ, Option, length, map, take, IfErr, IfOk, OnOk};
ghost use Rattle.uip_edge.specs.Prelude.{sink_view, SinkView};
ghost use Rattle.uip_edge.specs.declared.item.Item.{Item};
ghost use Rattle.uip_edge.specs.declared.item.Item.TheVariants.{Byte, Quiet as QuietItem};

use uip_edge::Sink;

/// What reads a line: it consumes items, and writes what they cause.
pub(crate) trait LineReader: Drop {
    /// Why it stops, other than because of the line.
    type Stop: Drop;

    /// Its configuration, which no call changes.
    ghost Config: { Type 0 };

    /// It can consume more.
    ghost ready: { Self → Type 0 };

    /// How many of the items it has counted.
    ghost counted: { Self → ℕ };

    /// With this configuration it has consumed these items, and this much is written.
    ghost took: { Self → Self.Config → List Item → Option (List ℕ) → Type 0 };

    /// With this configuration it stopped among these bytes, after these items. Before, the sink had this number of faults.
    ghost stopped: { Self → Self.Config → Self.Stop → List Item → List ℕ → ℕ → SinkView → Type 0 };

    /// Consumes a silence.
    fn silence(&mut self)
        requires ready { ready self.old }
        requires counted { counted self.old + 1 < 2 ^ 64 }
        ensures ready { ready self.new }
        ensures counted { counted self.new ≤ counted self.old + 1 }
        ensures took { (k : Self.Config) (before : List Item) (now : Option (List ℕ)) → took self.old k before now
            → took self.new k (before ++ QuietItem ∷ []) now };

    /// Consumes a prefix of the bytes.
    fn take_prefix<K: Sink>(&mut self, bytes: &[u8], sink: &mut K) -> Result<usize, Self::Stop>
        requires some { 0 < length bytes.now }
        requires ready { ready self.old }
        requires counted { counted self.old + length bytes.now < 2 ^ 64 }
        ensures count { IfOk result (λ n. (0 < n) × (n ≤ length bytes.now)) }
        ensures ready { OnOk result (ready self.new) }
        ensures counted { IfOk result (λ n. counted self.new ≤ counted self.old + n) }
        ensures took { IfOk result (λ n. (k : Self.Config) (before : List Item) → took self.old k before (K.written sink.old)
            → took self.new k (before ++ map Byte (take n bytes.now)) (K.written sink.new)) }
        ensures calm { OnOk result (K.faults sink.new ≡ K.faults sink.old) }
        ensures stopped { IfErr result (λ stop. (k : Self.Config) (before : List Item) → took self.old k before (K.written sink.old)
            → stopped self.new k stop before bytes.now (K.faults sink.old) (sink_view K.Sink sink.new)) };
}
