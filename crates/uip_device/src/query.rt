//! The query that a device keeps for C: the text after the `?` of a request.

ghost use Rattle.std.specs.Prelude.{◌≡◌, ◌≤◌, ◌==◌, true, Some, codes, length, option_map, position};
ghost use Rattle.std.specs.List.{list_all, list_any};
ghost use Rattle.protosocket.specs.Prelude.{is_query_mark, is_stop};
ghost use Rattle.protosocket.specs.declared.stops.Stops.TheVariants.{Space, SpaceOrLine};
ghost use Rattle.web_pages.specs.Prelude.{after_method, target_of};
ghost use Rattle.uip_device.specs.Query.{ReadsQuery, is_file, is_kept_text, is_query_byte, kept_text, no_query, query_for, text_after_mark};

use arrayvec::ArrayVec;
use file_tree::FileId;
use std::marker::Model;

/// The most bytes of a query.
pub const LONGEST_QUERY: usize = 64;

/// A query: the file that was requested, the count of its hits after that request, modulo 2^32, and the text.
#[derive(Drop)]
pub struct Query {
    file: Option<FileId>,
    hit: u32,
    text: ArrayVec<u8, LONGEST_QUERY>,
}

impl Model for Query {
    ghost use Rattle.std.specs.Prelude.{◌≡◌, true, option_map};
    ghost use Rattle.uip_device.specs.Query.{QueryContent, is_kept_text};

    ghost Value = { QueryContent };

    ghost view = { λ q. record { file = option_map (λ id. id.0) q.file; hit = q.hit; text = q.text.items } };

    ghost invariant = { λ q. is_kept_text q.text.items ≡ true };
}

/// A query that was read: the count of hits, and the length of the text that was copied.
#[derive(Clone, Copy, Debug, PartialEq, Eq)]
pub struct QueryRead {
    pub hit: u32,
    pub len: usize,
}

/// Returns whether both are there and are the same file.
fn is_file(file: Option<FileId>, other: Option<FileId>) -> bool
    ensures { result ≡ is_file (option_map (λ id. id.0) file) (option_map (λ id. id.0) other) }
{
    match (file, other) {
        (Some(file), Some(other)) => file.0 == other.0,
        _ => false,
    }
}

impl Query {
    /// Returns that of a device that was requested nothing.
    pub(crate) fn none() -> Query
        ensures { result ≡ no_query }
    {
        Query {
            file: None,
            hit: 0,
            text: ArrayVec::new(),
        }
    }

    /// Keeps the text that a request for a file brought.
    pub(crate) fn keep(&mut self, file: FileId, hit: u32, text: &[u8])
        requires { is_kept_text text.now ≡ true }
        ensures { self.new ≡ record { file = Some file.0; hit = hit; text = text.now } }
    {
        self.file = Some(file);
        self.hit = hit;
        self.text.clear();
        let _fits = self.text.try_extend_from_slice(text);
    }

    /// Copies the text that is kept for a file to the start of `out`, which has room for 64 bytes; nothing if none is kept for it.
    pub fn read(&self, file: Option<FileId>, out: &mut [u8]) -> QueryRead
        requires { 64 ≤ length out.old }
        ensures { ReadsQuery (query_for self.now (option_map (λ id. id.0) file)) result.hit result.len out.old out.new }
    {
        if !is_file(self.file, file) {
            return QueryRead { hit: 0, len: 0 };
        }
        let len = self.text.len();
        out[..len].copy_from_slice(self.text.as_slice());
        QueryRead { hit: self.hit, len }
    }
}

/// Returns whether a byte is one of the signs that are kept.
fn is_sign(byte: u8) -> bool
    ensures { result ≡ list_any (λ sign. sign == byte) (codes "-_.~%&=+") }
{
    b"-_.~%&=+".iter().any(|sign| *sign == byte)
}

/// Returns whether a byte is kept.
fn is_query_byte(byte: u8) -> bool
    ensures { result ≡ is_query_byte byte }
{
    byte.is_ascii_alphanumeric() || is_sign(byte)
}

/// Returns whether each byte is kept.
fn are_query_bytes(text: &[u8]) -> bool
    ensures { result ≡ list_all is_query_byte text.now }
{
    text.iter().all(|byte| is_query_byte(*byte))
}

/// Returns whether a text is kept.
fn is_kept(text: &[u8]) -> bool
    ensures { result ≡ is_kept_text text.now }
{
    text.len() <= LONGEST_QUERY && are_query_bytes(text)
}

/// Returns the offset of the first space.
fn space_in(bytes: &[u8]) -> Option<usize>
    ensures { result ≡ position (is_stop Space) bytes.now }
{
    bytes.iter().position(|byte| *byte == b' ')
}

/// Returns the offset of the first byte that ends a target.
fn end_in(bytes: &[u8]) -> Option<usize>
    ensures { result ≡ position (is_stop SpaceOrLine) bytes.now }
{
    bytes
        .iter()
        .position(|byte| *byte == b' ' || *byte == b'\r' || *byte == b'\n')
}

/// Returns the offset of the first `?`.
fn mark_in(bytes: &[u8]) -> Option<usize>
    ensures { result ≡ position is_query_mark bytes.now }
{
    bytes.iter().position(|byte| *byte == b'?')
}

/// Returns the bytes after the first word.
fn after_method(request: &[u8]) -> &[u8]
    ensures { result.now ≡ after_method request.now }
{
    match space_in(request) {
        Some(end) => &request[end + 1..],
        None => &request[..0],
    }
}

/// Returns the second word.
fn target_in(request: &[u8]) -> &[u8]
    ensures { result.now ≡ target_of request.now }
{
    let rest = after_method(request);
    match end_in(rest) {
        Some(end) => &rest[..end],
        None => rest,
    }
}

/// Returns the text after the first `?`.
fn text_after_mark(target: &[u8]) -> Option<&[u8]>
    ensures { option_map (λ text. text.now) result ≡ text_after_mark target.now }
{
    match mark_in(target) {
        Some(mark) => Some(&target[mark + 1..]),
        None => None,
    }
}

/// Returns the text that is kept of a request for a file.
pub(crate) fn query_text(request: &[u8]) -> Option<&[u8]>
    ensures { option_map (λ text. text.now) result ≡ kept_text (text_after_mark (target_of request.now)) }
{
    match text_after_mark(target_in(request)) {
        Some(text) if is_kept(text) => Some(text),
        _ => None,
    }
}
