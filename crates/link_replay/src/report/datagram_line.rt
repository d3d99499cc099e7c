//! The line of a datagram.

ghost use Rattle.std.specs.Prelude.{◌≡◌, ◌+◌, ◌≤◌, ◌++◌, decimal, length};
ghost use Rattle.link_replay.specs.Report.{datagram_line as datagram_text, kind_words, who_word};

use crate::report::kind::Kind;
use crate::report::line::Line;
use crate::world::sent::Sent;
use link_world::Who;

/// Makes the line of the datagram with this number.
pub(crate) fn datagram_line(number: usize, sent: &Sent, kind: Kind) -> Line
    ensures { result ≡ datagram_text number sent.now.tick sent.now.who kind sent.now.again }
{
    let mut line = Line::new();
    line.put_number(number as u64);
    line.put(b" ");
    line.put_number(u64::from(sent.tick));
    line.put(b" ");
    put_who(&mut line, sent.who);
    line.put(b" ");
    put_kind(&mut line, kind);
    line.put_if(sent.again, b" again");
    line.put(b"\n");
    line
}

/// Appends a sender.
fn put_who(line: &mut Line, who: Who)
    requires { length line.old + 21 ≤ 256 }
    ensures text { line.new ≡ line.old ++ who_word who }
    ensures len { length line.new ≤ length line.old + 21 }
{
    match who {
        Who::FromClient(number) => put_lettered(line, b"c", number),
        Who::FromNode(number) => put_lettered(line, b"n", number),
        Who::Pinger => line.put(b"p"),
    }
}

/// Appends a letter and a number after it.
fn put_lettered(line: &mut Line, letter: &[u8; 1], number: u8)
    requires { length line.old + 21 ≤ 256 }
    ensures text { line.new ≡ line.old ++ (letter.now ++ decimal number) }
    ensures len { length line.new ≤ length line.old + 21 }
{
    line.put(letter);
    line.put_number(u64::from(number));
}

/// Appends flags, sequence number and length.
fn put_kind(line: &mut Line, kind: Kind)
    requires { length line.old + 47 ≤ 256 }
    ensures text { line.new ≡ line.old ++ kind_words kind }
    ensures len { length line.new ≤ length line.old + 47 }
{
    match kind {
        Kind::Segment { flags, seq, len } => {
            line.put_flags(flags);
            line.put(b" ");
            line.put_number(u64::from(seq));
            line.put(b" ");
            line.put_number(len as u64);
        }
        Kind::EchoRequest => line.put(b"echo 0 0"),
        Kind::EchoReply => line.put(b"reply 0 0"),
    }
}
