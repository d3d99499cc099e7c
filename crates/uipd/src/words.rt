//! Parses the words of the command line.

ghost use Rattle.std.specs.Prelude.{◌≡◌, ◌≤◌, Option, Some, map, option_map, string_bytes, IfSome};
ghost use Rattle.uipd.specs.Words.{task_meant, task_of, check_words as words_of_check, pack_words as words_of_pack};
ghost use Rattle.uipd.specs.Words.{serve_words as words_of_serve, ether_words as words_of_ether};
ghost use Rattle.uipd.specs.Words.{upgrade_words as words_of_upgrade};
ghost use Rattle.uipd.specs.Words.{load_words as words_of_load, page_words as words_of_page, replay_words as words_of_replay};
ghost use Rattle.uipd.specs.Words.{Captures, Dumps, slip_words as words_of_slip, plays_back as played_back};
ghost use Rattle.uipd.specs.Words.{number_within as number_meant_within, items_named as items_spelled};
ghost use Rattle.uipd.specs.Words.{shown as text_asked};
ghost use Rattle.uipd.specs.Words.{ends_here as no_more, limited as limits_meant, limits_at as limits_after};
ghost use Rattle.uipd.specs.Words.{limits_of as limits_spelled, ends_in_tty as terminal_reported};
ghost use Rattle.uipd.specs.Allowed.{IsAllowed};
ghost use Rattle.uip_wire.specs.Numerals.{numeral as number_meant};

use crate::help::{HELP, VERSION};
use crate::parts::{are_kind_words, have_parts};
use ethernet_arp::Mac;
use uip_wire::{Addr, numeral};

/// The pace at which the bytes of a line make ticks, if it is above 0, and the greatest number of items that are consumed.
#[derive(Clone, Copy, Debug, PartialEq, Eq)]
pub struct Limits {
    pub pace: u64,
    pub items: u64,
}

/// How a line carries datagrams.
/// [add: line-kind] A variant with what its words give.
#[derive(Clone, Copy, Debug, PartialEq, Eq)]
pub enum LineKind {
    /// A serial line (RFC 1055).
    Serial,
    /// Ethernet frames of a host with this hardware address, each after its length in two bytes.
    Ethernet(Mac),
}

/// The application on the connections of a node.
/// [add: application] A variant with its ports.
#[derive(Clone, Copy, Debug, PartialEq, Eq)]
pub enum Application {
    /// The web server, at port 80.
    Web,
    /// The web server at port 80, and the shell at port 23.
    Desk,
}

/// A line that is served at an address.
#[derive(Clone, Copy, Debug, PartialEq, Eq)]
pub struct ServedLine {
    pub own: Addr,
    pub kind: LineKind,
    pub application: Application,
    pub limits: Limits,
}

/// What the words ask for.
/// [add: command] A variant with its words.
#[derive(Clone, Copy, Debug, PartialEq, Eq)]
pub enum Command<'a> {
    /// `serve SITE ADDR`, `desk SITE ADDR` or `ether SITE ADDR MAC`, and further words: serves the line by the web server of a
    /// site, at a desk beside the shell.
    Serve(&'a str, ServedLine),
    /// `check SITE`: reports the files of an image, with the greatest lengths of their pages.
    Check(&'a str),
    /// `pack NAME=FILE ..`: packs files into an image.
    Pack(&'a [String]),
    /// `upgrade SITE NAME=TYPE ..`: upgrades an image to version 2, which gives each file a content type.
    Upgrade(&'a str, &'a [String]),
    /// `page SITE TARGET`: writes the page of a target, as a node sends it before anything has happened.
    Page(&'a str, &'a str),
    /// `replay SITE SCHEDULE`, and optionally `show`: plays a schedule by the web server of a site, and writes the report.
    Replay(&'a str, &'a str, bool),
    /// `load SITE SEED CLIENTS`: plays the schedule of a seed for 1 to 64 clients by the web server of a site, and writes one
    /// line.
    Load(&'a str, u64, u8),
    /// `dump`, and further words: writes a line of text for each frame of the line, up to a number of items.
    Dump(u64),
    /// `pcap`, and further words: writes a capture file of the line's datagrams, up to a number of items.
    Pcap(u64),
    /// `slip`, and optionally `items N`: converts a capture file to a serial line, up to a number of items.
    Slip(u64),
    /// `--help` or `--version`: writes a text of the program.
    Show(&'a [u8]),
}

/// Parses the words, if they have a form.
/// [add: command] An arm for its first word.
pub fn command_of(words: &[String]) -> Option<Command<'_>>
    ensures task { option_map task_meant result ≡ task_of (map string_bytes words.now) }
    ensures allowed { IfSome result IsAllowed }
{
    match words {
        [] => None,
        [command, words @ ..] if command.as_str() == "serve" => {
            serve_words(Application::Web, words)
        }
        [command, words @ ..] if command.as_str() == "desk" => {
            serve_words(Application::Desk, words)
        }
        [command, words @ ..] if command.as_str() == "ether" => ether_words(words),
        [command, words @ ..] if command.as_str() == "check" => check_words(words),
        [command, words @ ..] if command.as_str() == "pack" => pack_words(words),
        [command, words @ ..] if command.as_str() == "upgrade" => upgrade_words(words),
        [command, words @ ..] if command.as_str() == "page" => page_words(words),
        [command, words @ ..] if command.as_str() == "replay" => replay_words(words),
        [command, words @ ..] if command.as_str() == "load" => load_words(words),
        [command, words @ ..] if command.as_str() == "dump" => dump_words(words),
        [command, words @ ..] if command.as_str() == "pcap" => pcap_words(words),
        [command, words @ ..] if command.as_str() == "slip" => slip_words(words),
        [command, words @ ..] if command.as_str() == "--help" => shown(HELP, words),
        [command, words @ ..] if command.as_str() == "--version" => shown(VERSION, words),
        _ => None,
    }
}

/// Parses the words after `serve` and `desk`: `SITE ADDR`, and further words.
fn serve_words(application: Application, words: &[String]) -> Option<Command<'_>>
    ensures { option_map task_meant result ≡ words_of_serve application (map string_bytes words.now) }
{
    match words {
        [site, address, words @ ..] => Some(Command::Serve(
            site,
            ServedLine {
                own: Addr::parse(address.as_bytes())?,
                kind: LineKind::Serial,
                application,
                limits: limits_of(words)?,
            },
        )),
        _ => None,
    }
}

/// Parses the words after `ether`: `SITE ADDR MAC`, and further words.
fn ether_words(words: &[String]) -> Option<Command<'_>>
    ensures { option_map task_meant result ≡ words_of_ether (map string_bytes words.now) }
{
    match words {
        [site, address, mac, words @ ..] => Some(Command::Serve(
            site,
            ServedLine {
                own: Addr::parse(address.as_bytes())?,
                kind: LineKind::Ethernet(Mac::parse(mac.as_bytes())?),
                application: Application::Web,
                limits: limits_of(words)?,
            },
        )),
        _ => None,
    }
}

/// Parses the further words of a line: optionally `pace K`, then optionally `items N`, then optionally `tty`.
fn limits_of(words: &[String]) -> Option<Limits>
    ensures { result ≡ limits_spelled (map string_bytes words.now) }
{
    match words {
        [word, number, rest @ ..] => {
            if word.as_str() == "pace" {
                return limits_at(number_of(number)?, rest);
            }
            limits_at(0, words)
        }
        _ => limits_at(0, words),
    }
}

/// Parses the words after the pace.
fn limits_at(pace: u64, words: &[String]) -> Option<Limits>
    ensures { result ≡ limits_after pace (map string_bytes words.now) }
{
    match words {
        [word, number, rest @ ..] => {
            if word.as_str() == "items" {
                return limited(pace, number_of(number)?, rest);
            }
            limited(pace, u64::MAX, words)
        }
        _ => limited(pace, u64::MAX, words),
    }
}

fn limited(pace: u64, items: u64, words: &[String]) -> Option<Limits>
    ensures { result ≡ limits_meant pace items (map string_bytes words.now) }
{
    if ends_here(words) {
        Some(Limits { pace, items })
    } else {
        None
    }
}

/// Returns whether the last word is `tty`: then an empty read is a silence.
pub fn ends_in_tty(words: &[String]) -> bool
    ensures { result ≡ terminal_reported (map string_bytes words.now) }
{
    match words.last() {
        Some(word) => word.as_str() == "tty",
        None => false,
    }
}

/// Returns whether there are no more words, or `tty` alone.
fn ends_here(words: &[String]) -> bool
    ensures { result ≡ no_more (map string_bytes words.now) }
{
    match words {
        [] => true,
        [word] => word.as_str() == "tty",
        _ => false,
    }
}

/// Parses the words after `check`.
fn check_words(words: &[String]) -> Option<Command<'_>>
    ensures { option_map task_meant result ≡ words_of_check (map string_bytes words.now) }
{
    match words {
        [site] => Some(Command::Check(site)),
        _ => None,
    }
}

/// Parses the words after `pack`, at least one.
fn pack_words(words: &[String]) -> Option<Command<'_>>
    ensures { option_map task_meant result ≡ words_of_pack (map string_bytes words.now) }
{
    if words.is_empty() || !have_parts(words) {
        return None;
    }
    Some(Command::Pack(words))
}

/// Parses the words after `upgrade`: the site, and words that each give a file a content type.
fn upgrade_words(words: &[String]) -> Option<Command<'_>>
    ensures task { option_map task_meant result ≡ words_of_upgrade (map string_bytes words.now) }
    ensures allowed { IfSome result IsAllowed }
{
    match words {
        [site, kinds @ ..] if are_kind_words(kinds) => Some(Command::Upgrade(site, kinds)),
        _ => None,
    }
}

/// Parses the words after `page`.
fn page_words(words: &[String]) -> Option<Command<'_>>
    ensures { option_map task_meant result ≡ words_of_page (map string_bytes words.now) }
{
    match words {
        [site, target] => Some(Command::Page(site, target)),
        _ => None,
    }
}

/// Parses the words after `replay`: the site and the schedule, and optionally `show`.
fn replay_words(words: &[String]) -> Option<Command<'_>>
    ensures { option_map task_meant result ≡ words_of_replay (map string_bytes words.now) }
{
    match words {
        [site, schedule] => Some(Command::Replay(site, schedule, false)),
        [site, schedule, word] if word.as_str() == "show" => {
            Some(Command::Replay(site, schedule, true))
        }
        _ => None,
    }
}

/// Parses the words after `load`: the site, the seed, and the number of clients, from 1 to 64.
fn load_words(words: &[String]) -> Option<Command<'_>>
    ensures task { option_map task_meant result ≡ words_of_load (map string_bytes words.now) }
    ensures allowed { IfSome result IsAllowed }
{
    match words {
        [site, seed, clients] => {
            let (seed, clients) = (number_of(seed)?, within(1, 64, clients)?);
            Some(Command::Load(site, seed, clients as u8))
        }
        _ => None,
    }
}

/// Parses the words after `dump`.
fn dump_words(words: &[String]) -> Option<Command<'_>>
    ensures { option_map task_meant result ≡ option_map Dumps (items_spelled (map string_bytes words.now)) }
{
    Some(Command::Dump(items_of(words)?))
}

/// Parses the words after `pcap`.
fn pcap_words(words: &[String]) -> Option<Command<'_>>
    ensures { option_map task_meant result ≡ option_map Captures (items_spelled (map string_bytes words.now)) }
{
    Some(Command::Pcap(items_of(words)?))
}

/// Parses the greatest number of items of a line: optionally `items N`, then optionally `tty`.
fn items_of(words: &[String]) -> Option<u64>
    ensures { result ≡ items_spelled (map string_bytes words.now) }
{
    Some(limits_at(0, words)?.items)
}

/// Parses the words after `slip`: optionally `items N`. A file has no silences, so `tty` is not allowed.
fn slip_words(words: &[String]) -> Option<Command<'_>>
    ensures { option_map task_meant result ≡ words_of_slip (map string_bytes words.now) }
{
    match words {
        [word, number, words @ ..] if word.as_str() == "items" => {
            plays_back(number_of(number)?, words)
        }
        _ => plays_back(u64::MAX, words),
    }
}

fn plays_back<'a>(items: u64, words: &[String]) -> Option<Command<'a>>
    ensures { option_map task_meant result ≡ played_back items (map string_bytes words.now) }
{
    if words.is_empty() {
        Some(Command::Slip(items))
    } else {
        None
    }
}

/// Returns a text of the program, if no words follow the one that asks for it.
fn shown<'a>(text: &'a [u8], words: &[String]) -> Option<Command<'a>>
    ensures task { option_map task_meant result ≡ text_asked text.now (map string_bytes words.now) }
    ensures allowed { IfSome result IsAllowed }
{
    match words {
        [] => Some(Command::Show(text)),
        _ => None,
    }
}

/// Parses a number of a range.
pub(crate) fn within(low: u64, high: u64, text: &str) -> Option<u64>
    ensures number { result ≡ number_meant_within low high text.now }
    ensures range { IfSome result (λ n. (low ≤ n) × (n ≤ high)) }
{
    let number = number_of(text)?;
    if low <= number && number <= high {
        Some(number)
    } else {
        None
    }
}

/// Parses a decimal number below 2^64.
pub(crate) fn number_of(text: &str) -> Option<u64>
    ensures { result ≡ number_meant text.now }
{
    numeral(text.as_bytes())
}
