//! Serves a line: turns, until the budget of items is used up or a turn ends the line.

ghost use Rattle.std.specs.Prelude.{◌≡◌};
ghost use Rattle.uip_edge.specs.Prelude.{line_view};
ghost use Rattle.serve_loop.specs.Prelude.{BudgetIsReported, EndIsReported, ServesFresh, ServesOver, ServesPaced, any_acts, slip_medium};

use crate::line_turn::poll_link;
use crate::pacer::Pacer;
use crate::slip::Slip;
use app_events::App;
use line_medium::Medium;
use uip_edge::{Link, ServeEnd, Sink, Turn};
use uip_node::Node;

/// The most bytes that are read from a link at once.
const BLOCK: usize = 4096;

/// Serves a serial line, up to `items` items. At a pace above 0 every `pace` bytes make a tick; each silence makes one. It is not passed an
/// allocator.
#[inline(never)]
pub fn serve<A: App, L: Link, K: Sink>(
    node: &mut Node<A>,
    link: &mut L,
    sink: &mut K,
    pace: u64,
    items: u64,
) -> ServeEnd
    ensures same { A.config node.new.shared ≡ A.config node.old.shared }
    ensures serves { ServesOver A.App slip_medium any_acts any_acts pace items node.old node.new
        (line_view L.Link K.Sink link.old sink.old)
        (line_view L.Link K.Sink link.new sink.new) result }
{
    let mut medium = Slip::new();
    serve_over(&mut medium, node, link, sink, pace, items)
}

/// Serves a line over a medium that was fed nothing, up to `items` items. At a pace above 0 every `pace` bytes make a tick; each silence
/// makes one. It is not passed an allocator.
pub fn serve_over<A: App, M: Medium, L: Link, K: Sink>(
    medium: &mut M,
    node: &mut Node<A>,
    link: &mut L,
    sink: &mut K,
    pace: u64,
    items: u64,
) -> ServeEnd
    ensures same { A.config node.new.shared ≡ A.config node.old.shared }
    ensures serves { ServesFresh A.App M.Medium medium.old medium.new pace items node.old node.new
        (line_view L.Link K.Sink link.old sink.old)
        (line_view L.Link K.Sink link.new sink.new) result }
{
    let mut pacer = Pacer::new(pace);
    serve_line(medium, &mut pacer, node, link, sink, items)
}

/// Takes turns at a line until `items` items were consumed.
fn serve_line<A: App, M: Medium, L: Link, K: Sink>(
    medium: &mut M,
    pacer: &mut Pacer,
    node: &mut Node<A>,
    link: &mut L,
    sink: &mut K,
    items: u64,
) -> ServeEnd
    ensures same { A.config node.new.shared ≡ A.config node.old.shared }
    ensures serves { ServesPaced A.App M.Medium pacer.old medium.old medium.new items node.old node.new
        (line_view L.Link K.Sink link.old sink.old)
        (line_view L.Link K.Sink link.new sink.new) result }
{
    let mut buf = [0; BLOCK];
    let mut left = items;
    while left > 0 {
        let room = left.min(BLOCK as u64) as usize;
        match poll_link(medium, pacer, node, &mut buf[..room], link, sink) {
            Turn::Took(count) => left -= count,
            Turn::Ended(end) => return end,
        }
    }
    ServeEnd::Budget
}

/// The end is `Budget` if as many items were consumed as were allowed and nothing failed.
pub fn budget_is_reported()
    ensures { BudgetIsReported }
{}

/// The end is `End` if the link had fewer items than were allowed and nothing failed.
pub fn end_is_reported()
    ensures { EndIsReported }
{}
