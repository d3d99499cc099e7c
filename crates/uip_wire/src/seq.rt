ghost use Rattle.std.specs.Prelude.{◌≡◌, ◌+◌};
ghost use Rattle.uip_wire.specs.Numbers.{wrap};

/// A sequence number of TCP, counted modulo 2^32 (RFC 793, section 3.3).
#[derive(Clone, Copy, Debug, PartialEq, Eq)]
pub struct Seq(pub u32);

impl Seq {
    /// Returns the number `count` further on.
    pub fn add(self, count: u32) -> Seq
        ensures { result.0 ≡ wrap (self.0 + count) }
    {
        Seq(self.0.wrapping_add(count))
    }

    /// Returns how far after `from` this number is.
    pub fn distance(self, from: Seq) -> u32
        ensures { wrap (from.0 + result) ≡ self.0 }
    {
        self.0.wrapping_sub(from.0)
    }
}
