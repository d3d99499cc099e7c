//! The messages (RFC 1035, section 4.1).

ghost use Rattle.std.specs.Prelude.{◌≡◌, ◌+◌, ◌≤◌, ◌++◌, List, flat_map, length, ℕ};
ghost use Rattle.dns_message.specs.Messages.{answer_by_message, is_reply, query_message, question_bytes};
ghost use Rattle.dns_message.specs.Names.{label_bytes, labels};

use crate::answer::Answer;
use crate::name::{LONGEST_NAME, Name};
use crate::record::answer_of_records;
use arrayvec::ArrayVec;
use memchr::memchr;
use uip_wire::get16;

/// The bytes of a message's header.
const HEADER: usize = 12;

/// The most bytes of a question: a length before the name and a 0 after it, the type and the class.
const LONGEST_QUESTION: usize = LONGEST_NAME + 6;

/// The most bytes of a query.
const LONGEST_QUERY: usize = HEADER + LONGEST_QUESTION;

/// Appends a label with its length.
fn put_label(out: &mut ArrayVec<u8, LONGEST_QUESTION>, label: &[u8])
    requires { length out.old.items + length label.now + 1 ≤ LONGEST_QUESTION }
    ensures { out.new.items ≡ out.old.items ++ label_bytes label.now }
{
    out.push(label.len() as u8);
    let _fits = out.try_extend_from_slice(label);
}

/// Appends the labels of a text.
fn put_labels(out: &mut ArrayVec<u8, LONGEST_QUESTION>, text: &[u8])
    requires { length out.old.items + length text.now + 1 ≤ LONGEST_QUESTION }
    ensures text { out.new.items ≡ out.old.items ++ flat_map label_bytes (labels text.now) }
    ensures room { length out.new.items ≡ length out.old.items + length text.now + 1 }
{
    let mut rest = text;
    while let Some(dot) = memchr(b'.', rest) {
        put_label(out, &rest[..dot]);
        rest = &rest[dot + 1..];
    }
    put_label(out, rest);
}

/// Returns the question for the address of a name.
fn question(name: &Name) -> ArrayVec<u8, LONGEST_QUESTION>
    ensures { result.items ≡ question_bytes name.now }
{
    let mut question: ArrayVec<u8, LONGEST_QUESTION> = ArrayVec::new();
    put_labels(&mut question, &name.text);
    let _end_fits = question.try_extend_from_slice(&[0, 0, 1, 0, 1]);
    question
}

/// Returns the query of an id for the address of a name.
pub(crate) fn query_message(id: u16, name: &Name) -> ArrayVec<u8, LONGEST_QUERY>
    ensures { result.items ≡ query_message id name.now }
{
    let [id_high, id_low] = id.to_be_bytes();
    let header = [id_high, id_low, 1, 0, 0, 1, 0, 0, 0, 0, 0, 0];
    let mut message: ArrayVec<u8, LONGEST_QUERY> = ArrayVec::new();
    let _header_fits = message.try_extend_from_slice(&header);
    let _question_fits = message.try_extend_from_slice(&question(name));
    message
}

/// Returns the answer of a message to the query of an id for a name, if it is a reply to it.
pub(crate) fn answer_by_message(id: u16, name: &Name, message: &[u8]) -> Option<Answer>
    ensures { result ≡ answer_by_message id name.now message.now }
{
    if message.len() < HEADER {
        return None;
    }
    let question = question(name);
    if !is_reply(id, &question, message) {
        return None;
    }
    let code = message[3] % 16;
    if code != 0 {
        return Some(Answer::Code(code));
    }
    answer_of_records(get16(message, 6), &message[HEADER + question.len()..])
}

/// Returns whether a message is the reply to the query of this id with this question.
fn is_reply(id: u16, question: &[u8], message: &[u8]) -> bool
    requires { 12 ≤ length message.now }
    ensures { (text : List ℕ) → question.now ≡ question_bytes text → result ≡ is_reply id text message.now }
{
    if get16(message, 0) != id || message[2] / 8 != 16 || get16(message, 4) != 1 {
        return false;
    }
    let end = HEADER + question.len();
    message.len() >= end && message[HEADER..end].eq_ignore_ascii_case(question)
}
