//! Resource records (RFC 1035, section 4.1.3).

ghost use Rattle.std.specs.Prelude.{◌≡◌, None, if◌then◌else◌, nat_lt, option_map};
ghost use Rattle.dns_message.specs.Names.{after_the_name, after_pointer};
ghost use Rattle.dns_message.specs.Records.{address_in, answer_of_records, first_record, plain_record, record_after};

use crate::answer::Answer;
use uip_wire::{Addr, get16};

/// The fields of a resource record.
#[derive(Clone, Copy)]
struct Record<'a> {
    kind: u16,
    class: u16,
    content: &'a [u8],
}

/// Returns the answer of `count` answer records: the first address among them, or that there is none. Returns `None` if a record before the
/// first address is malformed.
pub(crate) fn answer_of_records(count: u16, bytes: &[u8]) -> Option<Answer>
    ensures { result ≡ answer_of_records count bytes.now }
{
    let mut rest = bytes;
    for _number in 0..count {
        let (found, trailing) = first_record(rest)?;
        if let Some(address) = address_in(found) {
            return Some(Answer::Address(address));
        }
        rest = trailing;
    }
    Some(Answer::NoAddress)
}

/// Returns the Internet address of a record, if it has one.
fn address_in(found: Record<'_>) -> Option<Addr>
    ensures { option_map (λ a. a.0) result ≡ address_in (plain_record found.entry) }
{
    if found.kind == 1 && found.class == 1 && found.content.len() == 4 {
        Some(Addr::get(found.content, 0))
    } else {
        None
    }
}

/// Returns the record at the start, and the bytes after it.
fn first_record(bytes: &[u8]) -> Option<(Record<'_>, &[u8])>
    ensures { option_map (λ p. (plain_record p.0, p.1.now)) result ≡ first_record bytes.now }
{
    record_after(after_the_name(bytes)?)
}

/// Returns the record whose owner was before these bytes, and the bytes after it.
fn record_after(bytes: &[u8]) -> Option<(Record<'_>, &[u8])>
    ensures { option_map (λ p. (plain_record p.0, p.1.now)) result ≡ record_after bytes.now }
{
    if bytes.len() < 10 {
        return None;
    }
    let end = 10 + usize::from(get16(bytes, 8));
    if bytes.len() < end {
        return None;
    }
    let found = Record {
        kind: get16(bytes, 0),
        class: get16(bytes, 2),
        content: &bytes[10..end],
    };
    Some((found, &bytes[end..]))
}

/// Returns the bytes after the name at the start.
fn after_the_name(bytes: &[u8]) -> Option<&[u8]>
    ensures { option_map (λ rest. rest.now) result ≡ after_the_name 0 bytes.now }
{
    let mut rest = bytes;
    while let [first, trailing @ ..] = rest {
        let count = usize::from(*first);
        if count == 0 {
            return Some(trailing);
        }
        if count >= 64 {
            return after_pointer(*first, trailing);
        }
        if trailing.len() < count {
            return None;
        }
        rest = &trailing[count..];
    }
    None
}

/// Returns the bytes after a pointer, if this was the first byte of one.
fn after_pointer(first: u8, trailing: &[u8]) -> Option<&[u8]>
    ensures { option_map (λ rest. rest.now) result ≡ if nat_lt first 192 then None else after_pointer trailing.now }
{
    match trailing {
        [_, rest @ ..] if first >= 192 => Some(rest),
        _ => None,
    }
}
