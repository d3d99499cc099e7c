//! The acts of a line.

ghost use Rattle.std.specs.Prelude.{◌≡◌, ◌==◌, ◌+◌, ◌-◌, ◌%◌, ◌≤◌, IfOk, [], ◌∷◌, filter, flat_map, length, map};
ghost use Rattle.std.specs.List.{range_with_len};
ghost use Rattle.link_world.specs.Prelude.{needs, acts_of, mark_after};
ghost use Rattle.link_world.specs.World.{World as PlainWorld};

use link_schedule::Event;
use link_world::Act;
use std::alloc::{AllocError, Global};

/// Returns how many numbers of datagrams an act may need.
/// [add: act] How many numbers of datagrams it needs.
pub(crate) fn needs(act: &Act) -> usize
    ensures exact { result ≡ needs act.now }
    ensures most { result ≤ 10 }
{
    match *act {
        Act::Tick => 10,
        Act::Window(..) | Act::Damage { .. } => 0,
        Act::Opens(_)
        | Act::Again(_)
        | Act::Closes(_)
        | Act::Aborts(_)
        | Act::Ping(_)
        | Act::Give(_) => 1,
    }
}

/// Returns the numbers above the mark that are sent, in order.
fn past_mark(alloc: Global, mark: u32, sent: u32) -> Result<Vec<u32>, AllocError>
    ensures { IfOk result (λ numbers. numbers.items ≡ range_with_len (mark + 1) (sent - mark)) }
{
    let mut numbers = Vec::new(alloc);
    for number in mark..sent {
        numbers.push(number + 1)?;
    }
    Ok(numbers)
}

/// Returns the odd ones of these numbers.
fn odd(alloc: Global, numbers: &[u32]) -> Result<Vec<u32>, AllocError>
    ensures { IfOk result (λ odd. odd.items ≡ filter (λ k. k % 2 == 1) numbers.now) }
{
    let mut odd = Vec::new(alloc);
    for number in numbers.iter() {
        if *number % 2 == 1 {
            odd.push(*number)?;
        }
    }
    Ok(odd)
}

/// Returns the acts that deliver each of these datagrams, in order.
fn gives(alloc: Global, numbers: &[u32]) -> Result<Vec<Act>, AllocError>
    ensures { IfOk result (λ acts. acts.items ≡ map Act.Give numbers.now) }
{
    let mut acts = Vec::new(alloc);
    for number in numbers.iter() {
        acts.push(Act::Give(*number))?;
    }
    Ok(acts)
}

/// Returns the acts that deliver each of these datagrams twice in a row.
fn gives_twice(alloc: Global, numbers: &[u32]) -> Result<Vec<Act>, AllocError>
    ensures { IfOk result (λ acts. acts.items ≡ flat_map (λ k. Act.Give k ∷ Act.Give k ∷ []) numbers.now) }
{
    let mut acts = Vec::new(alloc);
    for number in numbers.iter() {
        acts.push(Act::Give(*number))?;
        acts.push(Act::Give(*number))?;
    }
    Ok(acts)
}

/// Returns the acts of a line, if `sent` datagrams are sent and the mark is at this number.
/// [add: schedule-line] The acts that it is.
pub(crate) fn acts_of(
    alloc: Global,
    event: &Event,
    mark: u32,
    sent: u32,
) -> Result<Vec<Act>, AllocError>
    ensures { IfOk result (λ acts. (w : PlainWorld) → w.mark ≡ mark → length w.sent ≡ sent → acts.items ≡ acts_of w event.now) }
{
    match *event {
        Event::Opens(number) => alone(alloc, Act::Opens(number)),
        Event::Again(number) => alone(alloc, Act::Again(number)),
        Event::Closes(number) => alone(alloc, Act::Closes(number)),
        Event::Aborts(number) => alone(alloc, Act::Aborts(number)),
        Event::Window(number, window) => alone(alloc, Act::Window(number, window)),
        Event::Ping(source) => alone(alloc, Act::Ping(source)),
        Event::Give(number) => alone(alloc, Act::Give(number)),
        Event::Damage { number, at, mask } => alone(alloc, Act::Damage { number, at, mask }),
        Event::Tick(times) => vec![in alloc; Act::Tick; usize::from(times)],
        Event::Round => gives(alloc, past_mark(alloc, mark, sent)?.as_slice()),
        Event::Twice => gives_twice(alloc, past_mark(alloc, mark, sent)?.as_slice()),
        Event::Reverse => {
            let mut numbers = past_mark(alloc, mark, sent)?;
            numbers.as_mut_slice().reverse();
            gives(alloc, numbers.as_slice())
        }
        Event::Half => {
            let numbers = past_mark(alloc, mark, sent)?;
            gives(alloc, odd(alloc, numbers.as_slice())?.as_slice())
        }
        Event::Lose => Ok(Vec::new(alloc)),
    }
}

/// Returns the mark after a line, if `sent` datagrams were sent before it.
pub(crate) fn mark_after(event: &Event, mark: u32, sent: u32) -> u32
    ensures { (w : PlainWorld) → w.mark ≡ mark → length w.sent ≡ sent → result ≡ mark_after w event.now }
{
    match *event {
        Event::Round | Event::Twice | Event::Reverse | Event::Half | Event::Lose => mark.max(sent),
        Event::Opens(_)
        | Event::Again(_)
        | Event::Closes(_)
        | Event::Aborts(_)
        | Event::Window(..)
        | Event::Ping(_)
        | Event::Give(_)
        | Event::Damage { .. }
        | Event::Tick(_) => mark,
    }
}

/// Returns a list of one act.
fn alone(alloc: Global, act: Act) -> Result<Vec<Act>, AllocError>
    ensures { IfOk result (λ acts. acts.items ≡ act ∷ []) }
{
    let mut acts = Vec::new(alloc);
    acts.push(act)?;
    Ok(acts)
}
