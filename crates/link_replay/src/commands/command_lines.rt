//! The line of a bad schedule, and the writing of a text.

ghost use Rattle.std.specs.Prelude.{◌≡◌, ◌++◌, decimal, IfOk, OnOk};
ghost use Rattle.link_replay.specs.Outcome.{bad_schedule as line_of, reason_word as word_of};
ghost use Rattle.uip_edge.specs.Prelude.{WritesEnd, sink_view};
ghost use Rattle.link_replay.specs.declared.commands.replay_end.ReplayEnd.TheVariants as ends;

use crate::commands::replay_end::ReplayEnd;
use itoa::Buffer;
use link_schedule::Why;
use std::alloc::{AllocError, Global};
use uip_edge::Sink;

/// Writes a whole text, and returns this end, or the fault of the sink.
pub(crate) fn write_text<K: Sink>(text: &[u8], end: ReplayEnd, out: &mut K) -> ReplayEnd
    ensures { WritesEnd end ends.WriteFault (sink_view K.Sink out.old) (sink_view K.Sink out.new) text.now result }
{
    match out.write_whole(text) {
        Ok(()) => end,
        Err(_) => ReplayEnd::WriteFault,
    }
}

/// Makes the line that reports a bad schedule. Fails if memory runs out.
pub(crate) fn bad_schedule(alloc: Global, line: u32, why: Why) -> Result<Vec<u8>, AllocError>
    ensures { IfOk result (λ text. text.items ≡ line_of line why) }
{
    let mut text = Vec::from_slice(alloc, b"bad schedule ")?;
    text.extend_from_slice(why_word(why))?;
    text.extend_from_slice(b" ")?;
    push_number(&mut text, line)?;
    text.extend_from_slice(b"\n")?;
    Ok(text)
}

/// Appends a number without leading zeros.
fn push_number(text: &mut Vec<u8>, number: u32) -> Result<(), AllocError>
    ensures { OnOk result (text.new.items ≡ text.old.items ++ decimal number) }
{
    let mut digits = Buffer::new();
    text.extend_from_slice(digits.format(number).as_bytes())
}

/// Returns the word of a reason.
fn why_word(why: Why) -> &'static [u8]
    ensures { result.now ≡ word_of why }
{
    match why {
        Why::Long => b"long",
        Why::Form => b"form",
        Why::Clients => b"clients",
        Why::Ports => b"ports",
        Why::NoClient => b"client",
        Why::NoDatagram => b"datagram",
        Why::NoByte => b"byte",
        Why::AlreadyOpen => b"opened",
        Why::NotOpen => b"idle",
        Why::Full => b"full",
    }
}
