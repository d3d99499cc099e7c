ghost use Rattle.std.specs.Prelude.{◌≡◌};
ghost use Rattle.app_events.specs.Prelude.{is_live};
ghost use Rattle.tcp_table.specs.Connections.{is_at};
ghost use Rattle.tcp_table.specs.Slots.{waited, has_waited};

use app_events::{App, State};
use rexmit_timer::Timer;
use uip_wire::{Addr, Port, Seq};

/// One connection (RFC 793, section 3.2). What was sent is not stored: the application generates it again.
#[derive(Drop)]
pub struct Conn<A> {
    pub state: State,
    pub peer: Addr,
    pub peer_port: Port,
    pub own_port: Port,
    /// RCV.NXT: the next sequence number expected.
    pub rcv_nxt: Seq,
    /// SND.UNA: the lowest sequence number that is not acknowledged.
    pub snd_nxt: Seq,
    /// The number of outstanding sequence numbers, 0 if nothing is outstanding.
    pub len: u16,
    /// The longest text that may be sent, in bytes.
    pub mss: u16,
    /// The longest text that the peer accepts, in bytes, by its SYN.
    pub initial_mss: u16,
    pub timer: Timer,
    pub app: A,
}

impl<A: App> Conn<A> {
    /// Returns a CLOSED connection.
    pub fn closed() -> Conn<A>
        ensures { result.state ≡ State.Closed }
    {
        Conn {
            state: State::Closed,
            peer: Addr([0; 4]),
            peer_port: Port(0),
            own_port: Port(0),
            rcv_nxt: Seq(0),
            snd_nxt: Seq(0),
            len: 0,
            mss: 0,
            initial_mss: 0,
            timer: Timer::rest(),
            app: A::idle(),
        }
    }
}

impl<A> Conn<A> {
    /// Returns whether it is not CLOSED and has this peer and these ports.
    pub fn is_at(&self, peer: Addr, peer_port: Port, own_port: Port) -> bool
        ensures { result ≡ is_at peer peer_port own_port self.now }
    {
        self.peer_port == peer_port
            && self.own_port == own_port
            && self.state != State::Closed
            && self.peer == peer
    }

    /// Returns whether it is in any state other than CLOSED.
    pub fn is_live(&self) -> bool
        ensures { result ≡ is_live self.now.state }
    {
        self.state != State::Closed
    }

    /// Returns whether it has been in TIME-WAIT for `ticks` ticks.
    pub fn has_waited(&self, ticks: u8) -> bool
        ensures { result ≡ has_waited ticks self.now }
    {
        self.state == State::TimeWait && self.timer.count == ticks
    }

    /// Returns the number of ticks in TIME-WAIT.
    pub fn waited(&self) -> u8
        ensures { result ≡ waited self.now }
    {
        if self.state == State::TimeWait {
            self.timer.count
        } else {
            0
        }
    }
}
