//! One turn at a line: what the link returned is fed to the medium and the node, and the output is written.

ghost use Rattle.std.specs.Prelude.{◌≡◌, ◌<◌, ◌≤◌, ◌++◌, All, IfOk, List, OnErr, OnOk, [], length, take, ℕ};
ghost use Rattle.std.specs.Io.KnownBytes.{Appends};
ghost use Rattle.app_events.specs.Prelude.{IsByte};
ghost use Rattle.uip_edge.specs.Prelude.{HasCause, TurnFits, BreaksOff, line_view};
ghost use Rattle.serve_loop.specs.Prelude.{BreaksBrought, BreaksBytes, PlaysBrought, PlaysBytes};
ghost use Rattle.serve_loop.specs.Prelude.{TakesBytes, IfLinkEnded, TakesTurn, place};

use crate::node_output::{input_datagram, tick};
use crate::pacer::Pacer;
use app_events::App;
use line_medium::{Decoded, Medium};
use uip_edge::{Failed, Got, Link, ServeEnd, Sink, Turn};
use uip_node::Node;

/// Takes one turn at a line: polls the link and inputs what it returned to the node. All output that is due for it is written when this
/// returns. If the link fails, the turn has consumed nothing. The link is thus never polled between bytes that it returned and their
/// output.
pub fn poll_link<A: App, M: Medium, L: Link, K: Sink>(
    medium: &mut M,
    pacer: &mut Pacer,
    node: &mut Node<A>,
    buf: &mut [u8],
    link: &mut L,
    sink: &mut K,
) -> Turn<ServeEnd>
    requires room { 0 < length buf.old }
    ensures same { A.config node.new.shared ≡ A.config node.old.shared }
    ensures fits { TurnFits result (length buf.old) }
    ensures turns { TakesTurn A.App M.Medium medium.old medium.new pacer.old pacer.new node.old node.new
        (line_view L.Link K.Sink link.old sink.old)
        (line_view L.Link K.Sink link.new sink.new) (length buf.old) result }
    ensures rests { IfLinkEnded result ((medium.new ≡ medium.old) × (node.new ≡ node.old) × (pacer.new ≡ pacer.old)) }
{
    match link.next(buf) {
        Err(Failed) => Turn::Ended(ServeEnd::LinkFault),
        Ok(Got::End) => Turn::Ended(ServeEnd::End),
        Ok(Got::Quiet) => match tick(node, medium, sink) {
            Ok(()) => Turn::Took(1),
            Err(Failed) => Turn::Ended(ServeEnd::WriteFault),
        },
        Ok(Got::Bytes(count)) => match feed_bytes(medium, pacer, node, &buf[..count], sink) {
            Ok(()) => Turn::Took(count as u64),
            Err(Failed) => Turn::Ended(ServeEnd::WriteFault),
        },
    }
}

/// Feeds bytes.
fn feed_bytes<A: App, M: Medium, K: Sink>(
    medium: &mut M,
    pacer: &mut Pacer,
    node: &mut Node<A>,
    bytes: &[u8],
    sink: &mut K,
) -> Result<(), Failed>
    ensures same { A.config node.new.shared ≡ A.config node.old.shared }
    ensures are { All IsByte bytes.now }
    ensures taken { OnOk result (TakesBytes M.Medium bytes.now medium.old medium.new pacer.old pacer.new) }
    ensures ok { OnOk result (PlaysBytes A.App M.Medium bytes.now pacer.old
        (place medium.old node.old (K.written sink.old)) (place medium.new node.new (K.written sink.new))) }
    ensures err { OnErr result (BreaksBytes A.App M.Medium bytes.now pacer.old
        (place medium.old node.old (K.written sink.old)) (place medium.new node.new (K.written sink.new))) }
    ensures cause { HasCause (K.faults sink.old) (K.faults sink.new) result }
{
    let mut rest = bytes;
    while !rest.is_empty() {
        let count = feed_prefix(medium, pacer, node, rest, sink)?;
        rest = &rest[count..];
    }
    Ok(())
}

/// Feeds a prefix of the bytes, of which only the last one may complete a frame or make a tick.
fn feed_prefix<A: App, M: Medium, K: Sink>(
    medium: &mut M,
    pacer: &mut Pacer,
    node: &mut Node<A>,
    bytes: &[u8],
    sink: &mut K,
) -> Result<usize, Failed>
    requires some { 0 < length bytes.now }
    ensures same { A.config node.new.shared ≡ A.config node.old.shared }
    ensures count { IfOk result (λ n. (0 < n) × (n ≤ length bytes.now)) }
    ensures taken { IfOk result (λ n. TakesBytes M.Medium (take n bytes.now) medium.old medium.new pacer.old pacer.new) }
    ensures ok { IfOk result (λ n. PlaysBytes A.App M.Medium (take n bytes.now) pacer.old
        (place medium.old node.old (K.written sink.old)) (place medium.new node.new (K.written sink.new))) }
    ensures err { OnErr result (BreaksBytes A.App M.Medium bytes.now pacer.old
        (place medium.old node.old (K.written sink.old)) (place medium.new node.new (K.written sink.new))) }
    ensures cause { HasCause (K.faults sink.old) (K.faults sink.new) result }
{
    let due = pacer.due(bytes.len());
    let count = feed_medium(medium, node, &bytes[..due], sink)?;
    if pacer.pass(count) {
        tick(node, medium, sink)?;
    }
    Ok(count)
}

/// Feeds a prefix of the bytes, of which only the last one may complete a frame, whatever the pace.
fn feed_medium<A: App, M: Medium, K: Sink>(
    medium: &mut M,
    node: &mut Node<A>,
    bytes: &[u8],
    sink: &mut K,
) -> Result<usize, Failed>
    requires some { 0 < length bytes.now }
    ensures same { A.config node.new.shared ≡ A.config node.old.shared }
    ensures count { IfOk result (λ n. (0 < n) × (n ≤ length bytes.now)) }
    ensures fed { IfOk result (λ n. (k : M.Config) (before : List ℕ) → M.fed medium.old k before
        → M.fed medium.new k (before ++ take n bytes.now)) }
    ensures ok { IfOk result (λ n. PlaysBrought A.App M.Medium (take n bytes.now)
        (place medium.old node.old (K.written sink.old)) (place medium.new node.new (K.written sink.new))) }
    ensures err { OnErr result (BreaksBrought A.App M.Medium bytes.now
        (place medium.old node.old (K.written sink.old)) (place medium.new node.new (K.written sink.new))) }
    ensures cause { HasCause (K.faults sink.old) (K.faults sink.new) result }
{
    let run = medium.feed_run(bytes);
    match run.brought {
        Decoded::Nothing => Ok(run.count),
        Decoded::Overlong => {
            node.count_overlong();
            Ok(run.count)
        }
        Decoded::Datagram(count) => {
            input_datagram(node, medium, count, sink)?;
            Ok(run.count)
        }
        Decoded::Own(count) => {
            write_out(medium.shown(count), sink)?;
            Ok(run.count)
        }
    }
}

/// Writes a text, if it is not empty.
fn write_out<K: Sink>(text: &[u8], sink: &mut K) -> Result<(), Failed>
    ensures whole { OnOk result (Appends (K.written sink.old) (K.written sink.new) text.now) }
    ensures prefix { OnErr result (BreaksOff [] text.now (K.written sink.old) (K.written sink.new)) }
    ensures cause { HasCause (K.faults sink.old) (K.faults sink.new) result }
{
    if text.is_empty() {
        return Ok(());
    }
    sink.write_whole(text)
}
