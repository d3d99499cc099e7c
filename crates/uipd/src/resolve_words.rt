//! The words of `resolve`.

ghost use Rattle.std.specs.Prelude.{◌≡◌, map, option_map, string_bytes};
ghost use Rattle.uipd.specs.ResolveWords as meant;

use crate::words::{ends_in_tty, number_of, within};
use arrayvec::ArrayVec;
use std::marker::Model;
use udp_resolver::{MOST_NAMES, Name};
use uip_wire::Addr;

/// What the words of `resolve` ask for: to query a server at an address for names, the first of them with this id. At most
/// `items` items are consumed.
/// [add: told-command] What its words ask for.
#[derive(Drop)]
pub struct Resolving {
    pub own: Addr,
    pub server: Addr,
    pub id: u16,
    pub names: ArrayVec<Name, MOST_NAMES>,
    pub items: u64,
}

impl Model for Resolving {
    ghost use Rattle.uipd.specs.ResolveWords.{Resolving as Plain};

    ghost Value = { Plain };

    ghost view = { λ r. record { own = r.own; server = r.server; id = r.id; names = r.names.items; items = r.items } };
}

/// Parses words that begin with `resolve`, if they have its form.
pub fn resolving_of(words: &[String]) -> Option<Resolving>
    ensures { result ≡ meant.resolving_of (map string_bytes words.now) }
{
    match words {
        [command, words @ ..] if command.as_str() == "resolve" => resolve_words(words),
        _ => None,
    }
}

/// Parses the words after `resolve`: `OWN SERVER ID`, and further words.
fn resolve_words(words: &[String]) -> Option<Resolving>
    ensures { result ≡ meant.resolve_words (map string_bytes words.now) }
{
    match words {
        [own, server, id, words @ ..] => asked_by(own, server, id, words),
        _ => None,
    }
}

/// Parses optionally `items N`, then the names, then optionally `tty`.
fn asked_by(own: &str, server: &str, id: &str, words: &[String]) -> Option<Resolving>
    ensures { result ≡ meant.asked_by own.now server.now id.now (map string_bytes words.now) }
{
    match words {
        [word, number, rest @ ..] => {
            if word.as_str() == "items" {
                return asked_at(own, server, id, number_of(number)?, rest);
            }
            asked_at(own, server, id, u64::MAX, words)
        }
        _ => asked_at(own, server, id, u64::MAX, words),
    }
}

/// Parses the addresses, the id, the number of items and the words after it.
fn asked_at(own: &str, server: &str, id: &str, items: u64, words: &[String]) -> Option<Resolving>
    ensures { result ≡ meant.asked_at own.now server.now id.now items (map string_bytes words.now) }
{
    Some(Resolving {
        own: Addr::parse(own.as_bytes())?,
        server: Addr::parse(server.as_bytes())?,
        id: within(0, 65535, id)? as u16,
        items,
        names: names_of(without_tty(words))?,
    })
}

/// Returns the words before a last `tty`, which `main` reads.
fn without_tty(words: &[String]) -> &[String]
    ensures { map string_bytes result.now ≡ meant.without_tty (map string_bytes words.now) }
{
    if ends_in_tty(words) {
        &words[..words.len() - 1]
    } else {
        words
    }
}

/// Parses one to four names.
fn names_of(words: &[String]) -> Option<ArrayVec<Name, MOST_NAMES>>
    ensures { option_map (λ names. names.items) result ≡ meant.names_of (map string_bytes words.now) }
{
    if words.is_empty() || words.len() > MOST_NAMES {
        return None;
    }
    let mut names: ArrayVec<Name, MOST_NAMES> = ArrayVec::new();
    for word in words {
        names.push(Name::parse(word.as_bytes())?);
    }
    Some(names)
}
