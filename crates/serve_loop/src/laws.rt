//! The events of a serial line.

ghost use Rattle.std.specs.Prelude.{◌≡◌, ℕ, Bool, List, map};
ghost use Rattle.app_events.specs.Prelude.{AppSpec};
ghost use Rattle.uip_edge.specs.declared.item.Item.{Item};
ghost use Rattle.uip_node.specs.Prelude.{Event, run};
ghost use Rattle.uip_wire.specs.declared.addr.Addr.{Addr as Address};
ghost use Rattle.serve_loop.specs.Prelude.{OfNode, Station, station_after_all, output, BringsBytes};
ghost use Rattle.serve_loop.specs.Prelude.{station_events_of_line, line_events, NoAct, slip_medium, text_of};

/// The events of a serial line are events of the node alone. They lead to where the node's run leads, and the output is the SLIP texts of
/// what this run sends.
pub fn serial_station_events_are_events()
    ensures station_events { (own : Address) (pace : ℕ) (items : List Item)
        → station_events_of_line slip_medium own pace items ≡ map OfNode (line_events own pace items) }
    ensures leads { (m : AppSpec) (served : ℕ → Bool) (events : List Event) (s : Station NoAct)
        → (station_after_all m served (map OfNode events) s).node ≡ (run m served events s.node).node }
    ensures output { (m : AppSpec) (served : ℕ → Bool) (own : Address) (events : List Event) (s : Station NoAct)
        → output m served slip_medium own (map OfNode events) s ≡ text_of own (run m served events s.node).sent }
{}

/// A serial line that is fed bytes decodes datagrams of bytes.
pub fn serial_lines_bring_bytes()
    ensures { BringsBytes slip_medium }
{}
