//! The laws of any sequence of calls from C.

ghost use Rattle.std.specs.Prelude.{◌≡◌, ◌++◌};
ghost use Rattle.frame_device.specs.Prelude.{handed_of, frame_moves_of};
ghost use Rattle.uip_device.specs.Prelude.{datagrams_handed, left_text_of, line_handed, moves_of};
ghost use Rattle.uip_device.specs.Prelude.{DeviceRepresents, web_datagrams_sent, web_line_sent, web_node_after};
ghost use Rattle.uip_c.specs.Prelude.{EtherRepresents, web_frames_sent, web_station_after, OfFrameMoves, OfMoves, IsEther, IsLine};
ghost use Rattle.uip_c.specs.Prelude.{CallsFromCConform, FramesFromCConform, LineFromCIsServed, ConstantValues};

/// Holds for any sequence of calls on a handle that was just opened, with a secret or none, over either kind of link, successful or
/// refused, with any values set between. The serial output, with what is pending, is the SLIP text of what the initial node and its guard
/// send over the input of the calls. Each call over a datagram link writes the datagram that is sent at its event, or none. The device
/// serves the same files, and represents the node after these moves.
pub fn calls_from_c_are_reported()
    ensures line { OfMoves (λ files own key all new.
        IsLine (λ d. line_handed all ++ left_text_of d ≡ web_line_sent files key own (moves_of all)) new) }
    ensures datagrams { OfMoves (λ files own key all new. datagrams_handed all ≡ web_datagrams_sent files key own (moves_of all)) }
    ensures represented { OfMoves (λ files own key all new.
        IsLine (λ d. DeviceRepresents files own d (web_node_after files key own (moves_of all))) new) }
{}

/// Holds for any bytes, any sequence of calls on a handle that was just opened with a good site, with a secret or none, and any values set
/// between. Each call writes what is sent in the trace entries of the events that the guarded node takes. The trace satisfies the
/// guarantee, for the pages of this site, in the numbers of the node and in those of the wire. The page of each cooperating peer arrives,
/// whatever the guard drops of what the calls bring.
pub fn calls_from_c_keep_the_promise()
    ensures { CallsFromCConform }
{}

/// Holds if the calls alone bring the items of a line at a pace, in order, no value is set, and no output is pending. The output is then
/// what the guarded node sends for these items. Where the guard neither shifts, drops nor gives up anything, it is what the server of a
/// serial line writes for them, with scripts that know the values.
pub fn line_from_c_is_served()
    ensures { LineFromCIsServed }
{}

/// Holds for any sequence of calls on a handle that was just opened on Ethernet, and protected or not, successful or refused, with any
/// values set between. Each call writes exactly the frame that the initial node with its guard and its link send for its events, or none.
/// The device serves the same files, and represents the node and the events of ARP after these moves.
pub fn frames_from_c_are_exact()
    ensures frames { OfFrameMoves (λ files own mac network key all new.
        handed_of all ≡ web_frames_sent files own mac network key (frame_moves_of all)) }
    ensures represented { OfFrameMoves (λ files own mac network key all new.
        IsEther (λ d. EtherRepresents files own mac network d (web_station_after files own mac network key (frame_moves_of all))) new) }
{}

/// Holds for any frames of bytes, any sequence of calls on a handle that was just opened on Ethernet with a good site, and protected or not,
/// and any values set between. Each call writes the frame of what is sent in the trace entries of its input, or of ARP. The trace satisfies
/// the guarantee, for the pages of this site, in the numbers of the node and in those of the wire.
pub fn frames_from_c_keep_the_promise()
    ensures { FramesFromCConform }
{}

/// The smallest `out` has the number of include/uip.h.
pub fn constant_values()
    ensures { ConstantValues }
{}
