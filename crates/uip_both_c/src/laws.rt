//! What holds of calls from C.

ghost use Rattle.uip_both_c.specs.Prelude.{BothCallsConform, CallsAreExact};

/// Holds for any sequence of calls on a handle that was just opened, and protected or not, successful or refused, with any values set
/// between. A frame for a port that is not open, nor that of the pages, is dropped. Each other call writes exactly the frame that the
/// initial node and its link send for its events, or none. Each message was written to a connection that could capture it. The device
/// serves the same files, and represents the node and the events of ARP after these calls. Its open ports are those that were opened, and
/// each connection that is not CLOSED is at one of them, or at that of the pages.
pub fn both_calls_are_exact()
    ensures { CallsAreExact }
{}

/// Holds for any frames and texts of bytes, and any sequence of calls on a handle that was just opened, and protected or not, successful or
/// refused, with any values set between. A frame for a port that is not open is dropped. Each other call writes the frame of what is sent
/// in the trace entries of its input, or of ARP, and the trace satisfies the guarantee: at port 80 for the pages of the image, at the other
/// ports for the messages of the program. What is sent to a peer there is a prefix of the messages that its connection captured, in order.
/// For fewer than 2^32 calls, that is what the program wrote to the connection. Each frame with a datagram goes to the hardware address
/// that its next hop taught last.
pub fn both_calls_keep_the_promise()
    ensures { BothCallsConform }
{}
