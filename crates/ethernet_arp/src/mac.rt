//! Hardware addresses, in frames and as words.

ghost use Rattle.std.specs.Prelude.{◌≡◌, ◌+◌, ◌≤◌, length, option_map};
ghost use Rattle.ethernet_arp.specs.Frames.{mac_at};
ghost use Rattle.ethernet_arp.specs.Words.{digit_of, mac_of_text, pair_of};

/// A hardware address of Ethernet, its first byte first.
#[derive(Clone, Copy, Debug, PartialEq, Eq)]
pub struct Mac(pub [u8; 6]);

/// The hardware address of all stations.
pub(crate) const BROADCAST: Mac = Mac([255; 6]);

impl Mac {
    /// Parses six pairs of hexadecimal digits of either case, with colons between them. Any other text is `None`.
    pub fn parse(text: &[u8]) -> Option<Mac>
        ensures { option_map (λ m. m.0) result ≡ mac_of_text text.now }
    {
        match text {
            [
                a,
                b,
                b':',
                c,
                d,
                b':',
                e,
                f,
                b':',
                g,
                h,
                b':',
                i,
                j,
                b':',
                k,
                l,
            ] => Some(Mac([
                pair(*a, *b)?,
                pair(*c, *d)?,
                pair(*e, *f)?,
                pair(*g, *h)?,
                pair(*i, *j)?,
                pair(*k, *l)?,
            ])),
            _ => None,
        }
    }

    /// Returns the address at an offset of a frame.
    pub fn get(bytes: &[u8], at: usize) -> Mac
        requires { at + 6 ≤ length bytes.now }
        ensures { result.0 ≡ mac_at bytes.now at }
    {
        Mac([
            bytes[at],
            bytes[at + 1],
            bytes[at + 2],
            bytes[at + 3],
            bytes[at + 4],
            bytes[at + 5],
        ])
    }
}

/// Returns the byte of two hexadecimal digits.
fn pair(high: u8, low: u8) -> Option<u8>
    ensures { result ≡ pair_of high low }
{
    Some(digit(high)? * 16 + digit(low)?)
}

/// Returns the value of a hexadecimal digit.
fn digit(c: u8) -> Option<u8>
    ensures { result ≡ digit_of c }
{
    match c {
        b'0'..=b'9' => Some(c - b'0'),
        b'a'..=b'f' => Some(c - b'a' + 10),
        b'A'..=b'F' => Some(c - b'A' + 10),
        _ => None,
    }
}
