//! A link that carries bare datagrams.

use crate::frames::{Decoded, Frames};
use uip_wire::LARGEST_DATAGRAM;

/// A link that carries bare datagrams of 1 to 1500 bytes.
#[derive(Drop)]
pub struct Datagrams;

impl Frames for Datagrams {
    ghost use Rattle.std.specs.Prelude.{◌≡◌, ⊤, List};
    ghost use Rattle.serve_loop.specs.SerialMedium.{NoAct};
    ghost use Rattle.frame_device.specs.FrameSpecs.{datagram_frames_decode, datagram_frames};

    ghost Act = { NoAct };

    ghost Config = { ⊤ };

    ghost spec = { λ _. datagram_frames };

    ghost did = { λ _ _ _. ⊤ };

    fn take(&mut self, _buf: &mut [u8], len: usize) -> Decoded {
        if len == 0 || len > LARGEST_DATAGRAM {
            return Decoded::Nothing;
        }
        Decoded::Datagram { at: 0, len }
    }

    fn tick(&mut self) {}

    fn wrap(&self, datagram: &[u8], out: &mut [u8]) -> usize {
        out[..datagram.len()].copy_from_slice(datagram);
        datagram.len()
    }

    ghost bytes = { λ _. datagram_frames_decode };
}
