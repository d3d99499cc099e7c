//! What the moves of a caller write in turn: calls, and values that it sets between them.

ghost use Rattle.std.specs.Prelude.{◌≡◌, All, List, [], ℕ};
ghost use Rattle.app_events.specs.Prelude.{IsAddr, IsU32, AppSpec};
ghost use Rattle.uip_node.specs.Prelude.{IsSteady, SendsBytes};
ghost use Rattle.node_laws.specs.Prelude.{HasOutputModel, OutputModel};
ghost use Rattle.uip_wire.specs.declared.addr.Addr.{Addr};
ghost use Rattle.frame_device.specs.declared.device.FrameDevice.{FrameDevice as AnyDevice};
ghost use Rattle.frame_device.specs.Prelude.{FramesGoHome, SentAsOnLine, AnsweredFrame, AnswersAllFrames, FromFresh};
ghost use Rattle.frame_device.specs.Prelude.{IsFreshFrameDevice, RepresentsStation, Writing, frames_sent, handed_of};
ghost use Rattle.frame_device.specs.Prelude.{FramesConform, IsFrameOfBytes, KeepsU32, counts_after_moves, frame_moves_of, guarded_link};
ghost use Rattle.frame_device.specs.Prelude.{station_after_moves, stations_at};
ghost use Rattle.guarded_node.specs.Counts.{fresh_guard};
ghost use Rattle.guarded_node.specs.declared.guard.Rules.{Rules};
ghost use Rattle.serve_loop.specs.Prelude.{initial_station};

use crate::frames::Frames;
use app_events::App;

/// Holds for any calls of a fresh device in turn, and any values that are set between them. Each call writes exactly the frame that the
/// initial node with its guard and its link send for its events, or none. The device represents the node and link after all moves. The
/// configuration of its application stays, and so do the rules of its guard, which counted what it did at these stations.
pub fn frame_calls_are_exact<A: App, M: Frames>()
    ensures frames { FromFresh A.App M.Frames (λ k w m gives numbers own all old new.
        handed_of all ≡ frames_sent m A.served w gives own (frame_moves_of all) (initial_station own numbers)) }
    ensures represented { FromFresh A.App M.Frames (λ k w m gives numbers own all old new.
        RepresentsStation A.App M.Frames k m own new
        (station_after_moves m A.served w gives (frame_moves_of all) (initial_station own numbers))) }
    ensures kept { FromFresh A.App M.Frames (λ k w m gives numbers own all old new.
        (A.config new.node.shared ≡ A.config old.node.shared) × (new.guard.rules ≡ w.rules)) }
    ensures counted { FromFresh A.App M.Frames (λ k w m gives numbers own all old new.
        new.guard.counts ≡ counts_after_moves m A.served w gives (frame_moves_of all) (initial_station own numbers)
        (fresh_guard w.rules).counts) }
{}

/// Holds for any frames of bytes and any other calls of a fresh device in turn, and any values that are set between them, if its
/// application never retracts text, and sends bytes. Each call writes the frame of what is sent in trace entries of its own events, or of
/// the link's own event. The trace conforms, in the numbers of the node and in those of the wire.
pub fn frame_calls_keep_the_promise<A: App, M: Frames>()
    ensures { (k : M.Config) (m : AppSpec) (model : ℕ → OutputModel) → IsSteady m → SendsBytes m → HasOutputModel m model
        → (gives : Writing) → KeepsU32 gives → (numbers : List ℕ) → All IsU32 numbers → (rules : Rules) (own : Addr) → IsAddr own
        → (all : List AnsweredFrame) → All IsFrameOfBytes (frame_moves_of all) → (old new : AnyDevice A M A.Shared)
        → IsFreshFrameDevice A.App M.Frames k m numbers rules own old → AnswersAllFrames A.App M.Frames gives all old new
        → FramesConform (guarded_link (M.spec k) rules) m model A.served own
        (stations_at m A.served (guarded_link (M.spec k) rules) gives (frame_moves_of all) (initial_station own numbers)) all }
{}

/// Over Ethernet, if every address is on the link, a call writes what `ether_medium` sends on a line for the same events, without the
/// length before the frame.
pub fn ether_frames_are_of_the_line()
    ensures { SentAsOnLine }
{}

/// Over Ethernet each frame with a datagram goes to the hardware address that its next hop taught last.
#[tactic(auto, using(crate::proofs::HomeLaws::frames_go_home))]
pub fn ether_frames_go_home()
    ensures { FramesGoHome }
{}
