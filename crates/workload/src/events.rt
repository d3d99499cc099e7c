//! The events of a workload.

ghost use Rattle.std.specs.Prelude.{◌≡◌, ◌≤◌, ◌/◌, ◌%◌, ◌+◌, ◌++◌, ◌∷◌, [], OnOk, IfOk, flat_map, length, map, replicate};
ghost use Rattle.std.specs.List.{range_with_len};
ghost use Rattle.rand_core.specs.Steps.{first_words};
ghost use Rattle.rand_pcg.specs.Pcg.{pcg32};
ghost use Rattle.link_schedule.specs.declared.event.Event.TheVariants.{Opens, Round as RoundEvent};
ghost use Rattle.workload.specs.Workload.{event_drawn as event_meant, happens as meant, numbered_from};

use link_schedule::{Event, Line};
use rand_core::utils::NextWord;
use rand_pcg::Pcg32;
use std::alloc::Global;
use uip_edge::NoMemory;

/// Returns the event that a word selects.
fn event_by(rest: u32, client: u8) -> Event
    ensures { result ≡ event_meant rest client }
{
    let others = [
        Event::Round,
        Event::Round,
        Event::Round,
        Event::Twice,
        Event::Reverse,
        Event::Half,
        Event::Lose,
    ];
    others
        .get(rest as usize)
        .copied()
        .unwrap_or(Event::Again(client))
}

/// Appends an event.
fn push(events: &mut Vec<Event>, event: Event) -> Result<(), NoMemory>
    ensures { OnOk result (events.new.items ≡ events.old.items ++ event ∷ []) }
{
    events.push(event)?;
    Ok(())
}

/// Appends an opening of each client.
pub(crate) fn push_opens(events: &mut Vec<Event>, clients: u8) -> Result<(), NoMemory>
    requires { clients ≤ 64 }
    ensures { OnOk result (events.new.items ≡ events.old.items ++ map (λ k. Opens k) (range_with_len 1 clients)) }
{
    for place in 0..clients {
        push(events, Event::Opens(place + 1))?;
    }
    Ok(())
}

/// Appends the events that the next `left` random words select.
pub(crate) fn push_drawn(
    events: &mut Vec<Event>,
    clients: u8,
    words: &mut Pcg32,
    left: u8,
) -> Result<(), NoMemory>
    requires some { 1 ≤ clients }
    requires few { clients ≤ 64 }
    ensures { OnOk result (events.new.items ≡ events.old.items ++ flat_map (meant clients) (first_words pcg32 left words.old)) }
{
    if left == 0 {
        return Ok(());
    }
    let word = words.next_word();
    push(events, event_by(word % 8, client_by(clients, word)))?;
    push(events, Event::Tick(1))?;
    push_drawn(events, clients, words, left - 1)
}

/// Returns the client that a word selects.
fn client_by(clients: u8, word: u32) -> u8
    requires some { 1 ≤ clients }
    requires few { clients ≤ 64 }
    ensures { result ≡ 1 + word / 8 % clients }
{
    1 + (word / 8 % u32::from(clients)) as u8
}

/// Appends the rounds at the end of a workload.
pub(crate) fn push_rounds(events: &mut Vec<Event>) -> Result<(), NoMemory>
    ensures { OnOk result (events.new.items ≡ events.old.items ++ replicate 40 RoundEvent) }
{
    events.extend_from_slice(&[Event::Round; 40])?;
    Ok(())
}

/// Returns a line with its number.
fn line_at(number: u32, event: &Event) -> Line
    ensures { result ≡ record { at = number; event = event.now } }
{
    Line {
        at: number,
        event: *event,
    }
}

/// Returns the lines of the events, numbered from `first` on.
pub(crate) fn lines_from(alloc: Global, first: u32, events: &[Event]) -> Result<Vec<Line>, NoMemory>
    requires { first + length events.now ≤ 4294967295 }
    ensures { IfOk result (λ lines. lines.items ≡ numbered_from first events.now) }
{
    let mut lines = Vec::new(alloc);
    for (place, event) in events.iter().enumerate() {
        lines.push(line_at(first + place as u32, event))?;
    }
    Ok(lines)
}
