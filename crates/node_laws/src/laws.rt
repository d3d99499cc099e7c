//! The laws of a node's trace.

ghost use Rattle.node_laws.specs.Prelude.{ArrivesUnderLoss, HonestPeer, EveryTraceConforms, EveryTraceOfPagesConforms, PlainestReceives};
ghost use Rattle.node_laws.specs.Prelude.{RetransmitsOrResets, WindowsAreRespected, WrongIncarnationsFall};

/// Holds for any datagrams, from any peers, and every application that never retracts text. Every incarnation of every connection in a
/// node's trace conforms to the output model of its port, and nothing is sent unsolicited.
pub fn every_trace_conforms()
    ensures { EveryTraceConforms }
{}

/// The same for an application whose text is a page at every port.
pub fn every_trace_of_pages_conforms()
    ensures { EveryTraceOfPagesConforms }
{}

/// The simplest receiver, which accepts in-order segments and discards all others, is one of those that the guarantee covers.
pub fn plainest_receives()
    ensures { PlainestReceives }
{}

/// The guarantee alone excludes wrong traces: a truncated retransmission, a FIN too early, a byte sent twice, and others.
pub fn wrong_incarnations_fall()
    ensures { WrongIncarnationsFall }
{}

/// A peer that sends a request, acknowledges each segment and loses none has its whole page and a FIN after a stated number of its
/// segments.
pub fn honest_peer()
    ensures { HonestPeer }
{}

/// The same over a link that loses, repeats and reorders datagrams, if what is outstanding is acknowledged before the last retransmission.
/// At each moment from its whole request on, the page has arrived, or one of a bounded number of acknowledgements is awaited.
pub fn arrives_under_loss()
    ensures { ArrivesUnderLoss }
{}

/// What is outstanding is retransmitted, or the connection reset, within 49 calls of each slot in which nothing is received from the peer.
pub fn retransmits_or_resets()
    ensures { RetransmitsOrResets }
{}

/// Text that is sent for the first time is no longer than the window of the newest segment received that was not out of order.
pub fn windows_are_respected()
    ensures { WindowsAreRespected }
{}
