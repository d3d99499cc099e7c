//! The line of a frame.

ghost use Rattle.std.specs.Prelude.{◌≡◌, ◌+◌, ◌≤◌, ◌++◌, [], IfOk, length};
ghost use Rattle.uip_slip.specs.Prelude.{Datagram, Overlong};
ghost use Rattle.uip_ipv4.specs.Prelude.{IsHeadOf, head_or_fate};
ghost use Rattle.uip_wire.specs.Prelude.{address_at};
ghost use Rattle.icmp_echo.specs.Prelude.{echo_fate};
ghost use Rattle.tcp_segment.specs.Prelude.{flag_letters};
ghost use Rattle.trace.specs.Prelude.{datagram_words, dump_line, icmp_words, ip_word, letters_or_dash};
ghost use Rattle.trace.specs.Prelude.{numbers_text, payload_words, segment_words, socket_text, tcp_words};

use crate::area::Area;
use tcp_segment::{Segment, TcpFate, check as check_segment};
use uip_ipv4::{IpFate, IpHead, Proto, check as check_head};
use uip_wire::{Addr, LARGEST_DATAGRAM, Port, checksum};

/// Makes the line of an overlong frame.
pub(crate) fn put_overlong_line(area: &mut Area, number: u64)
    requires { area.old ≡ [] }
    ensures { area.new ≡ dump_line number Overlong }
{
    area.put_number(number);
    area.put(b" overlong\n");
}

/// Makes the line of a datagram.
pub(crate) fn put_datagram_line(area: &mut Area, number: u64, datagram: &[u8])
    requires empty { area.old ≡ [] }
    requires most { length datagram.now ≤ LARGEST_DATAGRAM }
    ensures { area.new ≡ dump_line number (Datagram datagram.now) }
{
    area.put_number(number);
    area.put(b" ");
    area.put_number(datagram.len() as u64);
    put_datagram_words(area, datagram);
    area.put(b"\n");
}

/// Appends the first check that a datagram fails, or what the datagram is.
fn put_datagram_words(area: &mut Area, datagram: &[u8])
    requires room { length area.old ≤ 900 }
    requires most { length datagram.now ≤ LARGEST_DATAGRAM }
    ensures text { area.new ≡ area.old ++ datagram_words (head_or_fate datagram.now (address_at datagram.now 16)) datagram.now }
    ensures len { length area.new ≤ length area.old + 300 }
{
    match head_of(datagram) {
        Ok(head) => put_payload(area, &head, datagram),
        Err(fate) => {
            area.put(b" ip ");
            area.put(ip_text(fate));
        }
    }
}

/// Returns the header of a datagram, evaluated at its own destination, or the first check that fails.
#[tactic(auto, unfolding(uip_ipv4::specs::Head::head_or_fate))]
fn head_of(datagram: &[u8]) -> Result<IpHead, IpFate>
    ensures exact { result ≡ head_or_fate datagram.now (address_at datagram.now 16) }
    ensures checked { IfOk result (λ head. IsHeadOf head datagram.now) }
    ensures least { IfOk result (λ head. 20 ≤ head.total) }
    ensures most { IfOk result (λ head. head.total ≤ length datagram.now) }
{
    if datagram.len() < 20 {
        return Err(IpFate::Short);
    }
    check_head(datagram, Addr::get(datagram, 16))
}

/// Returns the word of a fate.
/// [add: fate] The word of an IP fate; those of ICMP and TCP are in `put_message` and `put_segment`.
fn ip_text(fate: IpFate) -> &'static [u8]
    ensures text { result.now ≡ ip_word fate }
    ensures short { length result.now ≤ 8 }
{
    match fate {
        IpFate::Short => b"short",
        IpFate::Version => b"version",
        IpFate::Length => b"length",
        IpFate::Fragment => b"fragment",
        IpFate::Checksum => b"checksum",
        IpFate::NotOurs => b"",
        IpFate::Protocol => b"protocol",
    }
}

/// Appends what a datagram carries.
fn put_payload(area: &mut Area, head: &IpHead, datagram: &[u8])
    requires room { length area.old ≤ 900 }
    requires head { IsHeadOf head.now datagram.now }
    requires least { 20 ≤ head.now.total }
    requires most { head.now.total ≤ length datagram.now }
    ensures text { area.new ≡ area.old ++ payload_words head.now.proto head.now datagram.now }
    ensures len { length area.new ≤ length area.old + 300 }
{
    match head.proto {
        Proto::Icmp => {
            area.put(b" icmp ");
            put_message(area, head, &datagram[20..usize::from(head.total)]);
        }
        Proto::Tcp => {
            area.put(b" tcp ");
            put_segment(area, head, check_segment(datagram, head));
        }
    }
}

/// Appends the first check that a message fails, or what it is. It may be another message than an echo request.
fn put_message(area: &mut Area, head: &IpHead, message: &[u8])
    requires room { length area.old ≤ 1000 }
    ensures text { area.new ≡ area.old ++ icmp_words head.now message.now (echo_fate message.now) }
    ensures len { length area.new ≤ length area.old + 290 }
{
    if message.len() < 8 {
        return area.put(b"short");
    }
    if checksum(message) != 0 {
        return area.put(b"checksum");
    }
    area.put_quad(head.source);
    area.put(b" ");
    area.put_quad(head.target);
    area.put(b" ");
    area.put_number(u64::from(message[0]));
    area.put(b" ");
    area.put_number(u64::from(message[1]));
}

/// Appends the first check that a segment fails, or what it is.
fn put_segment(area: &mut Area, head: &IpHead, read: Result<Segment, TcpFate>)
    requires room { length area.old ≤ 1000 }
    ensures text { area.new ≡ area.old ++ tcp_words head.now read }
    ensures len { length area.new ≤ length area.old + 290 }
{
    match read {
        Ok(segment) => put_segment_words(area, head, &segment),
        Err(TcpFate::Short) => area.put(b"short"),
        Err(TcpFate::Offset) => area.put(b"offset"),
        Err(TcpFate::Checksum) => area.put(b"checksum"),
    }
}

/// Appends what a segment is.
fn put_segment_words(area: &mut Area, head: &IpHead, segment: &Segment)
    requires room { length area.old ≤ 1000 }
    ensures text { area.new ≡ area.old ++ segment_words head.now segment.now }
    ensures len { length area.new ≤ length area.old + 290 }
{
    put_socket(area, head.source, segment.from);
    area.put(b" ");
    put_socket(area, head.target, segment.to);
    area.put(b" ");
    put_flags(area, segment);
    area.put(b" ");
    put_numbers(area, segment);
}

/// Appends a segment's numbers and the length of its text.
fn put_numbers(area: &mut Area, segment: &Segment)
    requires room { length area.old ≤ 1300 }
    ensures text { area.new ≡ area.old ++ numbers_text segment.now }
    ensures len { length area.new ≤ length area.old + 62 }
{
    area.put_number(u64::from(segment.seq.0));
    area.put(b" ");
    area.put_number(u64::from(segment.ack.0));
    area.put(b" ");
    area.put_number(segment.text_len as u64);
}

/// Appends an address and a port.
fn put_socket(area: &mut Area, address: Addr, port: Port)
    requires room { length area.old ≤ 1300 }
    ensures text { area.new ≡ area.old ++ socket_text address.0 port.0 }
    ensures len { length area.new ≤ length area.old + 36 }
{
    area.put_quad(address);
    area.put(b":");
    area.put_number(u64::from(port.0));
}

/// Appends the letters of a segment's flags, or a dash if there are none.
fn put_flags(area: &mut Area, segment: &Segment)
    requires room { length area.old ≤ 1300 }
    ensures text { area.new ≡ area.old ++ letters_or_dash (flag_letters segment.now.flags) }
    ensures len { length area.new ≤ length area.old + 5 }
{
    let before = area.len();
    area.put_flags(segment.flags);
    if area.len() == before {
        area.put(b"-");
    }
}
