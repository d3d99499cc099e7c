//! What a node counts at each kind of event: its counters, its ticks, and the identification of its datagrams.

ghost use Rattle.std.specs.Prelude.{◌≡◌, ℕ, ◌∷◌, List};
ghost use Rattle.tcp_machine.specs.Prelude.{Sockets};
ghost use Rattle.tcp_segment.specs.Prelude.{PlainSegment};
ghost use Rattle.uip_node.specs.Prelude.{CountsAnswer, CountsEvent, again_place, icmp_place, ip_place, seen, tcp_place};
ghost use Rattle.uip_node.specs.Prelude.{counters, ticks_of, HistoryEntry, Arrived, EchoAsked, IcmpRefused, IpRefused};
ghost use Rattle.uip_node.specs.Prelude.{Overlong, Periodic, TcpRefused, EchoReplied, NoSlot, Spoke};

use crate::counter::{
    ICMP_CHECKSUM, ICMP_IN, ICMP_OUT, ICMP_REFUSED, IP_CHECKSUM, IP_FRAGMENT, IP_IN, IP_LENGTH,
    IP_NOT_OURS, IP_OUT, IP_PROTOCOL, IP_SHORT, IP_VERSION, NO_COUNTER, NO_SLOT_LEFT,
    OVERLONG_FRAMES, TCP_AGAIN, TCP_CHECKSUM, TCP_IN, TCP_OUT, TCP_REFUSED,
};
use crate::increments::raised;
use icmp_echo::IcmpFate;
use tcp_segment::TcpFate;
use uip_ipv4::IpFate;

/// Returns the index of an IP fate's counter.
/// [add: fate] The number of a fate's counter, here or in the two functions below.
fn ip_place(fate: IpFate) -> usize
    ensures { result ≡ ip_place fate }
{
    match fate {
        IpFate::Short => IP_SHORT,
        IpFate::Version => IP_VERSION,
        IpFate::Length => IP_LENGTH,
        IpFate::Fragment => IP_FRAGMENT,
        IpFate::Checksum => IP_CHECKSUM,
        IpFate::NotOurs => IP_NOT_OURS,
        IpFate::Protocol => IP_PROTOCOL,
    }
}

/// Returns the index of an ICMP fate's counter.
fn icmp_place(fate: IcmpFate) -> usize
    ensures { result ≡ icmp_place fate }
{
    match fate {
        IcmpFate::Short | IcmpFate::NotEcho => ICMP_REFUSED,
        IcmpFate::Checksum => ICMP_CHECKSUM,
    }
}

/// Returns the index of a TCP fate's counter.
fn tcp_place(fate: TcpFate) -> usize
    ensures { result ≡ tcp_place fate }
{
    match fate {
        TcpFate::Short | TcpFate::Offset => TCP_REFUSED,
        TcpFate::Checksum => TCP_CHECKSUM,
    }
}

/// Returns the index of the counter of retransmissions, if this is one.
fn again_place(again: bool) -> usize
    ensures { result ≡ again_place again }
{
    if again { TCP_AGAIN } else { NO_COUNTER }
}

/// Counts a datagram that fails a check of its IP header.
pub(crate) fn refuse_ip(net: &mut [u32; 20], fate: IpFate)
    ensures { CountsEvent net.old net.new (IpRefused fate) }
{
    *net = raised(*net, IP_IN, ip_place(fate), NO_COUNTER);
}

/// Counts a datagram whose ICMP message is refused.
pub(crate) fn refuse_icmp(net: &mut [u32; 20], fate: IcmpFate)
    ensures { CountsEvent net.old net.new (IcmpRefused fate) }
{
    *net = raised(*net, IP_IN, ICMP_IN, icmp_place(fate));
}

/// Counts a datagram whose TCP segment is refused.
pub(crate) fn refuse_tcp(net: &mut [u32; 20], fate: TcpFate)
    ensures { CountsEvent net.old net.new (TcpRefused fate) }
{
    *net = raised(*net, IP_IN, TCP_IN, tcp_place(fate));
}

/// Counts an echo request and its reply.
/// [add: counter] A call that raises the counter, as this one.
pub(crate) fn echo(net: &mut [u32; 20])
    ensures { (history : List HistoryEntry) (request : List ℕ) → net.old ≡ counters history
        → net.new ≡ counters (record { event = EchoAsked request; answer = EchoReplied } ∷ history) }
{
    let asked = raised(*net, IP_IN, ICMP_IN, NO_COUNTER);
    *net = raised(asked, IP_OUT, ICMP_OUT, NO_COUNTER);
}

/// Counts a received segment.
pub(crate) fn segment_arrives(net: &mut [u32; 20])
    ensures { (sockets : Sockets) (segment : PlainSegment) → CountsEvent net.old net.new (Arrived sockets segment) }
{
    *net = raised(*net, IP_IN, TCP_IN, NO_COUNTER);
}

/// Counts a frame that is longer than a datagram.
pub(crate) fn overlong(net: &mut [u32; 20])
    ensures { CountsEvent net.old net.new Overlong }
{
    *net = raised(*net, OVERLONG_FRAMES, NO_COUNTER, NO_COUNTER);
}

/// Returns the ticks after the periodic call of a slot; that of slot 0 begins a tick.
pub(crate) fn ticks_at(ticks: u32, slot: usize) -> u32
    ensures { (history : List HistoryEntry) → ticks ≡ ticks_of history → result ≡ ticks_of (seen (Periodic slot) history) }
{
    if slot == 0 {
        ticks.wrapping_add(1)
    } else {
        ticks
    }
}

/// Counts a TCP datagram that is sent at the last event, and whether it is a retransmission.
pub(crate) fn segment_sent(net: &mut [u32; 20], again: bool)
    ensures { CountsAnswer net.old net.new (Spoke again) }
{
    *net = raised(*net, IP_OUT, TCP_OUT, again_place(again));
}

/// Counts a plain SYN for which there is no slot.
pub(crate) fn turn_away(net: &mut [u32; 20])
    ensures { CountsAnswer net.old net.new NoSlot }
{
    *net = raised(*net, NO_SLOT_LEFT, NO_COUNTER, NO_COUNTER);
}
