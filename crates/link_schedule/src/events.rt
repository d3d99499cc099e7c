//! The lines that state what happens, by their words.

ghost use Rattle.std.specs.Prelude.{◌≡◌, ◌<◌, ◌∷◌, [], bytes_eq, map};
ghost use Rattle.link_schedule.specs.Events.{bare as bare_meant, damage as damage_meant, event_of_words as event_meant};
ghost use Rattle.link_schedule.specs.Events.{window as window_meant, with_one as one_meant};

use crate::event::Event;
use crate::numbers::{addressed, named, within};
use crate::why::Why;

/// Returns what the words of a line mean, after lines that made this number of clients.
/// [add: schedule-line] Its form, by the number of its words.
pub fn event_of(clients: usize, words: &[&[u8]]) -> Result<Event, Why>
    requires { clients < 256 }
    ensures { result ≡ event_meant clients (map (λ word. word.now) words.now) }
{
    match words {
        [verb] => bare(verb),
        [verb, one] => with_one(clients, verb, one),
        [verb, one, two] => with_two(clients, verb, one, two),
        [verb, one, two, three] => with_three(verb, one, two, three),
        _ => Err(Why::Form),
    }
}

/// Returns whether the word is this one.
pub fn is_word(word: &[u8], name: &str) -> bool
    ensures { result ≡ bytes_eq word.now name.now }
{
    word == name.as_bytes()
}

/// Reads a verb alone.
#[tactic(auto, unfolding(crate::specs::Events::bare))]
fn bare(verb: &[u8]) -> Result<Event, Why>
    ensures { result ≡ bare_meant verb.now }
{
    if is_word(verb, "tick") {
        return Ok(Event::Tick(1));
    }
    if is_word(verb, "round") {
        return Ok(Event::Round);
    }
    if is_word(verb, "twice") {
        return Ok(Event::Twice);
    }
    if is_word(verb, "reverse") {
        return Ok(Event::Reverse);
    }
    if is_word(verb, "half") {
        return Ok(Event::Half);
    }
    if is_word(verb, "lose") {
        return Ok(Event::Lose);
    }
    Err(Why::Form)
}

/// Reads a verb and one word.
#[tactic(auto, unfolding(crate::specs::Events::with_one))]
fn with_one(clients: usize, verb: &[u8], word: &[u8]) -> Result<Event, Why>
    requires { clients < 256 }
    ensures { result ≡ one_meant clients verb.now word.now }
{
    if is_word(verb, "open") {
        return Ok(Event::Opens(named(clients, word)?));
    }
    if is_word(verb, "again") {
        return Ok(Event::Again(named(clients, word)?));
    }
    if is_word(verb, "close") {
        return Ok(Event::Closes(named(clients, word)?));
    }
    if is_word(verb, "abort") {
        return Ok(Event::Aborts(named(clients, word)?));
    }
    if is_word(verb, "ping") {
        return Ok(Event::Ping(addressed(word)?));
    }
    if is_word(verb, "give") {
        return Ok(Event::Give(within(0, u32::MAX, word)?));
    }
    if is_word(verb, "tick") {
        return Ok(Event::Tick(within(1, 300, word)? as u16));
    }
    Err(Why::Form)
}

/// Reads a verb and two words.
fn with_two(clients: usize, verb: &[u8], one: &[u8], two: &[u8]) -> Result<Event, Why>
    requires { clients < 256 }
    ensures { result ≡ event_meant clients (verb.now ∷ one.now ∷ two.now ∷ []) }
{
    if is_word(verb, "window") {
        return window(clients, one, two);
    }
    Err(Why::Form)
}

/// Reads a client's window.
fn window(clients: usize, client: &[u8], size: &[u8]) -> Result<Event, Why>
    requires { clients < 256 }
    ensures { result ≡ window_meant clients client.now size.now }
{
    let size = within(0, 65535, size)?;
    let client = named(clients, client)?;
    Ok(Event::Window(client, size as u16))
}

/// Reads a verb and three words.
fn with_three(verb: &[u8], one: &[u8], two: &[u8], three: &[u8]) -> Result<Event, Why>
    ensures { result ≡ event_meant 0 (verb.now ∷ one.now ∷ two.now ∷ three.now ∷ []) }
{
    if is_word(verb, "damage") {
        return damage(one, two, three);
    }
    Err(Why::Form)
}

/// Reads a datagram with a changed byte.
fn damage(number: &[u8], place: &[u8], change: &[u8]) -> Result<Event, Why>
    ensures { result ≡ damage_meant number.now place.now change.now }
{
    let number = within(0, u32::MAX, number)?;
    let at = within(0, 65535, place)?;
    let mask = within(1, 255, change)?;
    Ok(Event::Damage {
        number,
        at: at as u16,
        mask: mask as u8,
    })
}
