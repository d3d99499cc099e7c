//! Names as text (RFC 1035, section 2.3.1).

ghost use Rattle.std.specs.Prelude.{◌≡◌, ◌≤◌, [], None, Some, true, if◌then◌else◌, length, nat_le};
ghost use Rattle.std.specs.List.{list_all};
ghost use Rattle.dns_message.specs.Names.{is_label, is_label_byte, is_domain, labels};

use arrayvec::ArrayVec;
use memchr::memchr;
use std::marker::Model;

/// The most bytes of a name that can be queried.
pub const LONGEST_NAME: usize = 64;

/// A name that can be queried, as a text. Contracts see its bytes.
#[derive(Drop)]
pub struct Name {
    pub text: ArrayVec<u8, LONGEST_NAME>,
}

impl Model for Name {
    ghost use Rattle.std.specs.Prelude.{List, ℕ};

    ghost Value = { List ℕ };

    ghost view = { λ name. name.text.items };
}

impl Default for Name {
    /// Returns a name without text.
    fn default() -> Name
        ensures { result ≡ [] }
    {
        Name {
            text: ArrayVec::new(),
        }
    }
}

impl Name {
    /// Parses a name: at most 64 bytes, and two or more labels separated by dots, each of 1 to 63 letters, digits, `-` or `_`. Any other
    /// text is `None`.
    pub fn parse(text: &[u8]) -> Option<Name>
        ensures { result ≡ if is_domain text.now then Some text.now else None }
    {
        if !is_name(text) {
            return None;
        }
        let mut name: ArrayVec<u8, LONGEST_NAME> = ArrayVec::new();
        let _fits = name.try_extend_from_slice(text);
        Some(Name { text: name })
    }
}

/// Returns whether a text has the form of a name.
#[tactic(auto, unfolding(crate::specs::Names::is_domain))]
fn is_name(text: &[u8]) -> bool
    ensures exact { result ≡ is_domain text.now }
    ensures short { result ≡ true → length text.now ≤ LONGEST_NAME }
{
    text.len() <= LONGEST_NAME && has_dot(text) && has_labels(text)
}

/// Returns whether there is a dot, and so at least two labels.
fn has_dot(text: &[u8]) -> bool
    ensures { result ≡ nat_le 2 (length (labels text.now)) }
{
    memchr(b'.', text).is_some()
}

/// Returns whether each part between the dots is a label.
fn has_labels(text: &[u8]) -> bool
    ensures { result ≡ list_all is_label (labels text.now) }
{
    let mut rest = text;
    while let Some(dot) = memchr(b'.', rest) {
        if !is_label(&rest[..dot]) {
            return false;
        }
        rest = &rest[dot + 1..];
    }
    is_label(rest)
}

/// Returns whether it is a label.
fn is_label(label: &[u8]) -> bool
    ensures { result ≡ is_label label.now }
{
    !label.is_empty() && label.len() <= 63 && are_label_bytes(label)
}

/// Returns whether each byte is allowed in a label.
fn are_label_bytes(label: &[u8]) -> bool
    ensures { result ≡ list_all is_label_byte label.now }
{
    label.iter().all(|byte| byte.is_ascii_alphanumeric() || *byte == b'-' || *byte == b'_')
}
