//! What the periodic call does with a message.

ghost use Rattle.own_node.specs.Capturing.{PairsCaptureReadyMessages, ReadyMessagesAreCaptured};

/// The periodic call of its slot captures a message that was written to a connection that is ready. It is then the end of the text of that
/// connection, and the bytes that it answers are no longer pending.
pub fn ready_messages_are_captured()
    ensures { ReadyMessagesAreCaptured }
{}

/// The same for a node with a pair of which `OwnApp` is the second, whatever the first is.
pub fn pairs_capture_ready_messages()
    ensures { PairsCaptureReadyMessages }
{}
