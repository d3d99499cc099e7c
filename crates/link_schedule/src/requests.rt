//! The request of a client.

ghost use Rattle.std.specs.Prelude.{◌≡◌, ◌++◌, ◌&&◌, codes, map, nat_le};
ghost use Rattle.std.specs.List.{list_all};
ghost use Rattle.hex.specs.Hex.{decode_of};
ghost use Rattle.link_schedule.specs.Clients.{got as got_meant, is_target as target_meant, plan_of as plan_meant, plan_with as parts_meant};
ghost use Rattle.link_schedule.specs.Clients.{raw as raw_meant, request_of as request_meant};
ghost use Rattle.link_schedule.specs.Represents.{GivesAs, GivesPlan, request_at};

use crate::client_plan::ClientPlan;
use crate::events::is_word;
use crate::refusal::Refusal;
use crate::sides::side_of;
use crate::why::Why;
use hex::FromHexError;
use std::alloc::Global;

/// Returns the client that the words after `client` make.
pub fn plan_of(alloc: Global, words: &[&[u8]]) -> Result<ClientPlan, Refusal>
    ensures { GivesPlan result (plan_meant (map (λ word. word.now) words.now)) }
{
    match words {
        [addr, port, mss, seg, how, what] => plan_with(alloc, addr, port, mss, seg, how, what),
        _ => Err(Refusal::Faulty(Why::Form)),
    }
}

fn plan_with(
    alloc: Global,
    addr: &[u8],
    port: &[u8],
    mss: &[u8],
    seg: &[u8],
    how: &[u8],
    what: &[u8],
) -> Result<ClientPlan, Refusal>
    ensures { GivesPlan result (parts_meant addr.now port.now mss.now seg.now how.now what.now) }
{
    match side_of(addr, port, mss, seg) {
        Ok(side) => match request_of(alloc, how, what) {
            Ok(request) => Ok(ClientPlan {
                addr: side.addr,
                port: side.port,
                mss: side.mss,
                seg: side.seg,
                request,
            }),
            Err(refusal) => Err(refusal),
        },
        Err(why) => Err(Refusal::Faulty(why)),
    }
}

/// Returns the bytes of a client's request.
fn request_of(alloc: Global, how: &[u8], what: &[u8]) -> Result<Vec<u8>, Refusal>
    ensures { GivesAs request_at result (request_meant how.now what.now) }
{
    if is_word(how, "get") {
        return got(alloc, what);
    }
    if is_word(how, "raw") {
        return raw(alloc, what);
    }
    Err(Refusal::Faulty(Why::Form))
}

/// Returns the request for a target.
fn got(alloc: Global, target: &[u8]) -> Result<Vec<u8>, Refusal>
    ensures { GivesAs request_at result (got_meant target.now) }
{
    if !is_target(target) {
        return Err(Refusal::Faulty(Why::Form));
    }
    let mut request = Vec::new(alloc);
    if request.extend_from_slice(b"GET ").is_err() {
        return Err(Refusal::NoMemory);
    }
    if request.extend_from_slice(target).is_err() {
        return Err(Refusal::NoMemory);
    }
    if request.extend_from_slice(b" HTTP/1.0\r\n\r\n").is_err() {
        return Err(Refusal::NoMemory);
    }
    Ok(request)
}

/// Returns whether a word is a target.
fn is_target(word: &[u8]) -> bool
    ensures { result ≡ target_meant word.now }
{
    word.len() >= 1 && word.len() <= 4079 && all_seen(word)
}

fn all_seen(word: &[u8]) -> bool
    ensures { result ≡ list_all (λ c. nat_le 33 c && nat_le c 126) word.now }
{
    word.iter().all(|byte| *byte >= 33 && *byte <= 126)
}

/// Returns the request in hexadecimal digits.
fn raw(alloc: Global, digits: &[u8]) -> Result<Vec<u8>, Refusal>
    ensures { GivesAs request_at result (raw_meant (decode_of digits.now)) }
{
    match hex::decode(alloc, digits) {
        Ok(request) => {
            if request.len() >= 1 && request.len() <= 4096 {
                Ok(request)
            } else {
                Err(Refusal::Faulty(Why::Form))
            }
        }
        Err(FromHexError::OutOfMemory) => Err(Refusal::NoMemory),
        Err(_) => Err(Refusal::Faulty(Why::Form)),
    }
}
