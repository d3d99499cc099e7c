//! Reads the lines of a schedule.

ghost use Rattle.std.specs.Prelude.{◌≡◌, ◌<◌, ◌≤◌, ◌+◌, ◌==◌, length, map, vec_len};
ghost use Rattle.std.specs.List.{list_any, slice_split};
ghost use Rattle.link_schedule.specs.Clients.{Plan};
ghost use Rattle.link_schedule.specs.Reading.{is_passed_over as passed_over, meets as meeting};
ghost use Rattle.link_schedule.specs.Reading.{read_line as line_meant, read_words as words_meant};
ghost use Rattle.link_schedule.specs.Reading.{with_plan as client_meant, with_event as event_meant};
ghost use Rattle.link_schedule.specs.Represents.{ClientGives, EventGives, LineGives, content_of, read_client as client_read};

use crate::client_plan::ClientPlan;
use crate::events::{event_of, is_word};
use crate::line::Line;
use crate::refusal::Refusal;
use crate::requests::plan_of;
use crate::texts::words_of;
use crate::why::Why;
use std::alloc::Global;

/// The greatest number of clients.
pub const MOST_CLIENTS: usize = 64;

/// Reads one line of a text, after the lines before it.
pub fn read_line(
    alloc: Global,
    clients: &mut Vec<ClientPlan>,
    lines: &mut Vec<Line>,
    number: u32,
    line: &[u8],
) -> Result<(), Refusal>
    requires { vec_len clients.old ≤ 64 }
    ensures meant { LineGives result (content_of clients.new.items lines.new.items)
        (line_meant number (content_of clients.old.items lines.old.items) line.now) }
    ensures room { vec_len clients.new ≤ 64 }
{
    if is_passed_over(line) {
        return Ok(());
    }
    match words_of(alloc, line) {
        Ok(words) => read_words(alloc, clients, lines, number, words.as_slice()),
        Err(_) => Err(Refusal::NoMemory),
    }
}

/// Returns whether a line is empty or a remark.
fn is_passed_over(line: &[u8]) -> bool
    ensures { result ≡ passed_over line.now }
{
    match line {
        [] => true,
        [first, ..] => *first == b'#',
    }
}

/// Reads the words of a line.
fn read_words(
    alloc: Global,
    clients: &mut Vec<ClientPlan>,
    lines: &mut Vec<Line>,
    number: u32,
    words: &[&[u8]],
) -> Result<(), Refusal>
    requires { vec_len clients.old ≤ 64 }
    ensures meant { LineGives result (content_of clients.new.items lines.new.items)
        (words_meant number (content_of clients.old.items lines.old.items) (map (λ word. word.now) words.now)) }
    ensures room { vec_len clients.new ≤ 64 }
{
    match words {
        [] => Err(Refusal::Faulty(Why::Form)),
        [verb, rest @ ..] => {
            if is_word(verb, "client") {
                return read_client(alloc, clients, rest);
            }
            add_event(clients.len(), lines, number, words)
        }
    }
}

/// Reads the words after `client`.
fn read_client(alloc: Global, clients: &mut Vec<ClientPlan>, words: &[&[u8]]) -> Result<(), Refusal>
    requires { vec_len clients.old ≤ 64 }
    ensures meant { ClientGives result clients.new.items
        (λ above. client_read (map (λ word. word.now) words.now) above) clients.old.items }
    ensures room { vec_len clients.new ≤ 64 }
{
    match plan_of(alloc, words) {
        Ok(plan) => add_client(clients, plan),
        Err(refusal) => Err(refusal),
    }
}

/// Appends a client to those of the lines before.
fn add_client(clients: &mut Vec<ClientPlan>, plan: ClientPlan) -> Result<(), Refusal>
    requires { vec_len clients.old ≤ 64 }
    ensures meant { ClientGives result clients.new.items (λ above. client_meant above plan) clients.old.items }
    ensures room { vec_len clients.new ≤ 64 }
{
    let earlier = clients.as_slice();
    if earlier.len() >= MOST_CLIENTS {
        return Err(Refusal::Faulty(Why::Clients));
    }
    if has_ports_of(earlier, &plan) {
        return Err(Refusal::Faulty(Why::Ports));
    }
    if clients.push(plan).is_err() {
        return Err(Refusal::NoMemory);
    }
    Ok(())
}

/// Returns whether a client has the address and port of this one.
fn has_ports_of(clients: &[ClientPlan], plan: &ClientPlan) -> bool
    ensures { result ≡ list_any (λ earlier. meeting earlier plan.now) clients.now }
{
    clients.iter().any(|earlier| meets(earlier, plan))
}

/// Returns whether two clients have one address and port.
fn meets(earlier: &ClientPlan, plan: &ClientPlan) -> bool
    ensures { result ≡ meeting earlier.now plan.now }
{
    earlier.addr == plan.addr && earlier.port == plan.port
}

/// Appends a line that states what happens, after lines that made this number of clients.
fn add_event(
    count: usize,
    lines: &mut Vec<Line>,
    number: u32,
    words: &[&[u8]],
) -> Result<(), Refusal>
    requires { count ≤ 64 }
    ensures { EventGives result count lines.new.items
        (λ above. event_meant number above (map (λ word. word.now) words.now)) lines.old.items }
{
    match event_of(count, words) {
        Ok(event) => match lines.push(Line { at: number, event }) {
            Ok(()) => Ok(()),
            Err(_) => Err(Refusal::NoMemory),
        },
        Err(why) => Err(Refusal::Faulty(why)),
    }
}
