//! How the bytes of a value are escaped in a page.

ghost use Rattle.std.specs.Prelude.{◌≡◌, ◌+◌, ◌≤◌, ◌<◌, ◌++◌, [], flat_map, length};
ghost use Rattle.device_values.specs.Spellings.{html_byte, json_byte, hex_digit, spelled};

use arrayvec::ArrayVec;

/// How a value is escaped.
#[derive(Clone, Copy, Debug, PartialEq, Eq)]
pub enum Spelling {
    /// Its bytes as they are.
    Plain,
    /// For a string of JSON.
    Json,
    /// For HTML.
    Html,
}

/// A text that is escaped: a value of 32 bytes, each of at most six when escaped.
pub(crate) type Spelled = ArrayVec<u8, 192>;

/// Returns the text as it is escaped.
pub(crate) fn spell(spelling: Spelling, text: &[u8]) -> Spelled
    requires { length text.now ≤ 32 }
    ensures items { result.items ≡ spelled spelling text.now }
    ensures short { length result.items ≤ 192 }
{
    let mut out: Spelled = ArrayVec::new();
    match spelling {
        Spelling::Plain => push_all(&mut out, text),
        Spelling::Json => spell_json(&mut out, text),
        Spelling::Html => spell_html(&mut out, text),
    }
    out
}

/// The same for a string of JSON (RFC 8259, section 7).
fn spell_json(out: &mut Spelled, text: &[u8])
    requires none { out.old.items ≡ [] }
    requires short { length text.now ≤ 32 }
    ensures { out.new.items ≡ flat_map json_byte text.now }
{
    for byte in text {
        push_json(out, *byte);
    }
}

/// The same for HTML.
fn spell_html(out: &mut Spelled, text: &[u8])
    requires none { out.old.items ≡ [] }
    requires short { length text.now ≤ 32 }
    ensures { out.new.items ≡ flat_map html_byte text.now }
{
    for byte in text {
        push_html(out, *byte);
    }
}

/// Appends bytes. It is not inlined, since it is called in many places.
#[inline(never)]
fn push_all(out: &mut Spelled, piece: &[u8])
    requires { length out.old.items + length piece.now ≤ 192 }
    ensures items { out.new.items ≡ out.old.items ++ piece.now }
{
    for byte in piece {
        out.push(*byte);
    }
}

/// Appends a byte as a string of JSON has it.
fn push_json(out: &mut Spelled, byte: u8)
    requires { length out.old.items + 6 ≤ 192 }
    ensures items { out.new.items ≡ out.old.items ++ json_byte byte }
    ensures short { length out.new.items ≤ length out.old.items + 6 }
{
    if byte == b'"' {
        push_all(out, b"\\\"");
    } else if byte == b'\\' {
        push_all(out, b"\\\\");
    } else if byte < 32 {
        push_all(
            out,
            &[
                b'\\',
                b'u',
                b'0',
                b'0',
                hex_digit(byte / 16),
                hex_digit(byte % 16),
            ],
        );
    } else {
        push_all(out, &[byte]);
    }
}

/// Appends a byte as HTML has it.
fn push_html(out: &mut Spelled, byte: u8)
    requires { length out.old.items + 6 ≤ 192 }
    ensures items { out.new.items ≡ out.old.items ++ html_byte byte }
    ensures short { length out.new.items ≤ length out.old.items + 6 }
{
    if byte == b'&' {
        push_all(out, b"&amp;");
    } else if byte == b'<' {
        push_all(out, b"&lt;");
    } else if byte == b'>' {
        push_all(out, b"&gt;");
    } else if byte == b'"' {
        push_all(out, b"&quot;");
    } else if byte == b'\'' {
        push_all(out, b"&#39;");
    } else {
        push_all(out, &[byte]);
    }
}

/// Returns a hexadecimal digit.
fn hex_digit(digit: u8) -> u8
    requires { digit < 16 }
    ensures { result ≡ hex_digit digit }
{
    if digit < 10 {
        b'0' + digit
    } else {
        b'a' + (digit - 10)
    }
}
