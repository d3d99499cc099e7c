//! The laws of this medium.

ghost use Rattle.ethernet_arp.specs.Prelude.{ConstantValues, DatagramsFitFrames, FramesBringBytes, DatagramsGoHome};

/// The numbers that the definitions name by the code's constants.
pub fn constant_values()
    ensures { ConstantValues }
{}

/// In the output for a whole line each frame with a datagram goes to the hardware address that the datagram's target taught last.
pub fn datagrams_go_home()
    ensures { DatagramsGoHome }
{}

/// Each reply of the node on a line has 20 to 1500 bytes, and is sent in a frame.
#[tactic(auto, using(crate::proofs::SendableLaws::all_sendable))]
pub fn datagrams_fit_frames()
    ensures { DatagramsFitFrames }
{}

/// Frames that are fed bytes decode to bytes.
pub fn frames_bring_bytes()
    ensures { FramesBringBytes }
{}
