//! The decoder with an area of its own.

ghost use Rattle.std.specs.Prelude.{◌≡◌, ◌<◌, [], ◌∷◌, length, true};

use crate::fed::{Fed, FedRun};
use crate::part::Part;
use std::marker::Model;
use uip_wire::LARGEST_DATAGRAM;

/// A decoder with its own frame area.
#[derive(Drop)]
pub struct Decoder {
    area: [u8; LARGEST_DATAGRAM],
    part: Part,
}

impl Model for Decoder {
    ghost use Rattle.uip_slip.specs.Decoding.{State, state_in};

    ghost Value = { State };

    ghost view = { λ d. state_in d.area d.part };
}

impl Decoder {
    ghost use Rattle.uip_slip.specs.Decoding.{EndsFrame, FeedsBytes, FeedsPrefix, Leaves, WasFed};
    ghost use Rattle.uip_slip.specs.declared.fed.Fed.TheVariants.{More};

    /// Returns a decoder that was fed nothing.
    pub fn new() -> Decoder
        ensures { WasFed [] result }
    {
        Decoder {
            area: [0; LARGEST_DATAGRAM],
            part: Part::new(),
        }
    }

    /// Feeds one byte. The bytes of a datagram that it completes stay readable until the next call.
    pub fn feed(&mut self, byte: u8) -> Fed
        // Whatever was fed before, the results report its frames.
        ensures frames { FeedsBytes self.old (byte ∷ []) result self.new }
        ensures leaves { Leaves result self.new }
        ensures end { EndsFrame result byte }
    {
        self.part.feed(&mut self.area, byte)
    }

    /// Feeds a prefix of the bytes: up to an END that completes a frame, or all of them. The result is that of feeding them one by one, but
    /// a run without END and ESC is copied as a whole.
    pub fn feed_run(&mut self, bytes: &[u8]) -> FedRun
        requires { 0 < length bytes.now }
        ensures prefix { FeedsPrefix self.old bytes.now result self.new }
        ensures whole { result.fed ≡ More → result.count ≡ length bytes.now }
    {
        self.part.feed_run(&mut self.area, bytes)
    }

    /// Returns the datagram that was just decoded.
    pub fn bytes(&self, count: usize) -> &[u8]
        requires reported { self.now.reported ≡ true }
        requires count { count ≡ length self.now.bytes }
        ensures { result.now ≡ self.now.bytes }
    {
        self.part.bytes(&self.area, count)
    }
}
