//! The passive open: a plain SYN opens a connection (RFC 793, section 3.4).

ghost use Rattle.std.specs.Prelude.{◌≡◌, ℕ, ◌≤◌, true, false, List};
ghost use Rattle.tcp_machine.specs.Connection.{is_live};
ghost use Rattle.tcp_machine.specs.Fits.{StepFits};
ghost use Rattle.tcp_machine.specs.OnSegment.{first_mss, accepted};
ghost use Rattle.tcp_machine.specs.Sound.{IsSound};
ghost use Rattle.tcp_machine.specs.Represents.{ConnRepresents, plain};

use crate::step::Step;
use app_events::{App, State};
use rexmit_timer::Timer;
use tcp_segment::Segment;
use tcp_table::Conn;
use uip_wire::{Addr, OWN_MSS, Seq};

/// The largest text, in bytes, that a peer accepts whose SYN has no such option (RFC 1122, section 4.2.2.6).
pub const DEFAULT_MSS: u16 = 536;

/// Returns the largest text that the peer accepts, by the option of its SYN.
fn mss_of(option: Option<u16>) -> u16
    ensures mss { result ≡ first_mss option }
    ensures low { 1 ≤ result }
    ensures high { result ≤ OWN_MSS }
{
    match option {
        None | Some(0) => DEFAULT_MSS,
        Some(mss) => mss.min(OWN_MSS),
    }
}

/// Makes a connection in SYN-RECEIVED of a slot that is CLOSED or in TIME-WAIT, and returns that a SYN-ACK is to be sent. `iss` is the
/// initial send sequence number.
pub fn accept<A: App>(conn: &mut Conn<A>, peer: Addr, seg: &Segment, iss: Seq) -> Step
    ensures step { result ≡ Step.SynAck false }
    ensures peer { conn.new.peer ≡ peer }
    ensures peer_port { conn.new.peer_port ≡ seg.now.from }
    ensures own_port { conn.new.own_port ≡ seg.now.to }
    ensures live { is_live conn.new.state ≡ true }
    ensures fits { StepFits conn.new result }
    ensures sound { (k : A.Config) → IsSound A.App k conn.new }
    ensures represented { (k : A.Config) (text : List ℕ) → ConnRepresents A.App k conn.new (accepted iss.0
        (record { peer = peer; peer_port = seg.now.from; own_port = seg.now.to }) (plain seg.now text)) }
{
    let mss = mss_of(seg.mss);
    *conn = Conn {
        state: State::SynRcvd,
        peer,
        peer_port: seg.from,
        own_port: seg.to,
        rcv_nxt: seg.seq.add(1),
        snd_nxt: iss,
        len: 1,
        mss,
        initial_mss: mss,
        timer: Timer::fresh(),
        app: A::idle(),
    };
    Step::SynAck { again: false }
}
