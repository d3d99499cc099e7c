//! What holds of calls from C.

ghost use Rattle.uip_app_c.specs.Prelude.{AppCallsConform, CallsAreExact};

/// Holds for any sequence of calls on a handle that was just opened, and protected or not, successful or refused. A frame for a port that
/// is not open is dropped. Each other call writes exactly the frame that the initial node and its link send for its events, or none. Each
/// message was written to a connection that could capture it. The device represents the node and the events of ARP after these calls. Its
/// open ports are those that were opened, and each connection that is not CLOSED is at one of them.
pub fn app_calls_are_exact()
    ensures { CallsAreExact }
{}

/// Holds for any frames and texts of bytes, and any sequence of calls on a handle that was just opened, and protected or not, successful or
/// refused. A frame for a port that is not open is dropped. Each other call writes the frame of what is sent in the trace entries of its
/// input, or of ARP, and the trace satisfies the guarantee. What is sent to a peer is a prefix of the messages that its connection
/// captured, in order. For fewer than 2^32 calls, that is what C wrote to the connection. Each frame with a datagram goes to the hardware
/// address that its next hop taught last.
pub fn app_calls_keep_the_promise()
    ensures { AppCallsConform }
{}
