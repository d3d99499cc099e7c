//! The options of a received segment (RFC 793, section 3.1).

ghost use Rattle.std.specs.Prelude.{◌≡◌};
ghost use Rattle.tcp_segment.specs.Prelude.{trailing_bytes, is_mss, mss_in, value_of};

use uip_wire::get16;

/// Returns the value of the option for the maximum segment size, if it is there and not 0.
pub(crate) fn read_mss(options: &[u8]) -> Option<u16>
    ensures { result ≡ mss_in options.now }
{
    let mut rest = options;
    'options: while let [kind, after @ ..] = rest {
        if is_mss(*kind, after) {
            return unless_zero(get16(after, 1));
        }
        let count = trailing_bytes(*kind, after)?;
        rest = &after[count..];
    }
    None
}

/// Returns whether an option of this kind is the one for the maximum segment size, by the bytes after its kind.
fn is_mss(kind: u8, after: &[u8]) -> bool
    ensures { result ≡ is_mss kind after.now }
{
    kind == 2 && after.len() >= 3 && after[0] == 4
}

/// Returns the number of bytes of another option after its kind, unless the options end there.
fn trailing_bytes(kind: u8, after: &[u8]) -> Option<usize>
    ensures { result ≡ trailing_bytes kind after.now }
{
    if kind == 0 {
        return None;
    }
    if kind == 1 {
        return Some(0);
    }
    if after.is_empty() || after[0] < 2 || usize::from(after[0]) - 1 > after.len() {
        return None;
    }
    Some(usize::from(after[0]) - 1)
}

/// Returns the value; 0 counts as none.
fn unless_zero(mss: u16) -> Option<u16>
    ensures { result ≡ value_of mss }
{
    if mss == 0 { None } else { Some(mss) }
}
