//! The serial line as a medium (SLIP, RFC 1055).

ghost use Rattle.std.specs.Prelude.{[]};
ghost use Rattle.uip_slip.specs.Prelude.{WasFed};
ghost use Rattle.serve_loop.specs.SerialMedium.{NoAct, slip_medium};

use line_medium::{Decoded, DecodedRun, Medium};
use uip_edge::{Failed, Sink};
use uip_slip::{Decoder, Encoder, Fed};

/// A serial line.
#[derive(Drop)]
pub struct Slip {
    decoder: Decoder,
    encoder: Encoder,
}

impl Slip {
    /// Returns a line from which nothing was read.
    pub fn new() -> Slip
        ensures { WasFed [] result.decoder }
    {
        Slip {
            decoder: Decoder::new(),
            encoder: Encoder::new(),
        }
    }
}

impl Medium for Slip {
    ghost use Rattle.std.specs.Prelude.{◌≡◌, ⊤, length, true};

    ghost Act = { NoAct };

    ghost Config = { ⊤ };

    ghost spec = { λ k. slip_medium };

    ghost fed = { λ s k before. WasFed before s.decoder };

    ghost did = { λ s k acts. ⊤ };

    ghost shown = { λ s. s.decoder.bytes };

    ghost shows = { λ s n. (s.decoder.reported ≡ true) × (n ≡ length s.decoder.bytes) };

    fn feed_run(&mut self, bytes: &[u8]) -> DecodedRun {
        let run = self.decoder.feed_run(bytes);
        let brought = match run.fed {
            Fed::More => Decoded::Nothing,
            Fed::Overlong => Decoded::Overlong,
            Fed::Datagram(count) => Decoded::Datagram(count),
        };
        DecodedRun {
            count: run.count,
            brought,
        }
    }

    fn shown(&self, count: usize) -> &[u8] {
        self.decoder.bytes(count)
    }

    fn tick(&mut self) {}

    fn send<K: Sink>(&mut self, datagram: &[u8], sink: &mut K) -> Result<(), Failed> {
        self.encoder.encode(datagram, sink)
    }
}
