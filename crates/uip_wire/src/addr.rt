//! Internet addresses, in headers and as dotted quads.

ghost use Rattle.std.specs.List.{position_or_len};
ghost use Rattle.std.specs.Prelude.{◌≡◌, ◌==◌, ◌+◌, ◌≤◌, length, option_map};
ghost use Rattle.uip_wire.specs.Addr.{address_at, cut_at_dot, part_number, quad_of};
ghost use Rattle.uip_wire.specs.Fields.{written};

use crate::numerals::numeral;

/// An Internet address, its first byte first.
#[derive(Clone, Copy, Debug, PartialEq, Eq)]
pub struct Addr(pub [u8; 4]);

impl Addr {
    /// Parses a dotted quad: four numbers from 0 to 255 without leading zeros, with dots between them. Any other text is `None`.
    #[tactic(auto, unfolding(crate::specs::Addr::quad_of))]
    pub fn parse(text: &[u8]) -> Option<Addr>
        ensures { option_map (λ a. a.0) result ≡ quad_of text.now }
    {
        let (first, rest) = cut_at_dot(text)?;
        let (second, rest) = cut_at_dot(rest)?;
        let (third, last) = cut_at_dot(rest)?;
        Some(Addr([
            number(first)?,
            number(second)?,
            number(third)?,
            number(last)?,
        ]))
    }

    /// Returns the address at an offset of a header.
    pub fn get(bytes: &[u8], at: usize) -> Addr
        requires { at + 4 ≤ length bytes.now }
        ensures { result.0 ≡ address_at bytes.now at }
    {
        Addr([bytes[at], bytes[at + 1], bytes[at + 2], bytes[at + 3]])
    }

    /// Writes the address at an offset of a header. All other bytes are unchanged.
    pub fn put(self, bytes: &mut [u8], at: usize)
        requires { at + 4 ≤ length bytes.old }
        ensures { bytes.new ≡ written bytes.old at self.0 }
    {
        bytes[at..at + 4].copy_from_slice(&self.0);
    }
}

/// Returns the part before the first dot, and the part after it.
fn cut_at_dot(text: &[u8]) -> Option<(&[u8], &[u8])>
    ensures { option_map (λ p. (p.0.now, p.1.now)) result ≡ cut_at_dot text.now }
{
    let dot = first_dot(text);
    if dot < text.len() {
        Some((&text[..dot], &text[dot + 1..]))
    } else {
        None
    }
}

/// Returns the offset of the first dot, or the length.
fn first_dot(text: &[u8]) -> usize
    ensures { result ≡ position_or_len (λ c. c == 46) text.now }
{
    for (at, byte) in text.iter().enumerate() {
        if *byte == b'.' {
            return at;
        }
    }
    text.len()
}

/// Returns the number from 0 to 255 that decimal digits without a leading zero write.
fn number(text: &[u8]) -> Option<u8>
    ensures { result ≡ part_number text.now }
{
    let number = numeral(text)?;
    if number < 256 {
        Some(number as u8)
    } else {
        None
    }
}
