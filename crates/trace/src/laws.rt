//! What the definitions of a capture file give, and what must be reported.

ghost use Rattle.std.specs.Prelude.{◌≡◌, List, ℕ};
ghost use Rattle.uip_edge.specs.declared.item.Item.{Item};
ghost use Rattle.trace.specs.Prelude.{HoldsJust, IsReadAs, Reading, capture_file, datagrams_on};
ghost use Rattle.trace.specs.Prelude.{IsSurely, LinesComeBack, SlipEndsBy, ConstantValues};
ghost use Rattle.trace.specs.declared.slip_end.SlipEnd.{SlipEnd as AnyEnd};
ghost use Rattle.uip_edge.specs.Prelude.{LineView, LineUnfailed};

/// The bytes of a capture file have one reading.
pub fn read_in_one_way()
    ensures { (bytes : List ℕ) (one other : Reading) → IsReadAs bytes one → IsReadAs bytes other → one ≡ other }
{}

/// The records of the capture file of a line are the line's datagrams, in order.
pub fn records_are_datagrams()
    ensures { (items : List Item) → HoldsJust (datagrams_on items) (capture_file items) }
{}

/// What `pcap` wrote of a line, `slip` converts to the SLIP texts of the line's datagrams, and reports the end.
pub fn lines_come_back()
    ensures { LinesComeBack }
{}

/// If nothing failed, `slip` reports a fault of the file if there is one, else the budget, and else the end or a cut.
pub fn slip_end_is_reported()
    ensures { (n : ℕ) (old new : LineView) (taken : List Item) (reading : Reading) (end : AnyEnd)
        → SlipEndsBy n old new taken reading end
        → LineUnfailed old new → IsSurely n old new taken reading end }
{}

/// The constants have the values that the definitions name.
pub fn constant_values()
    ensures { ConstantValues }
{}
