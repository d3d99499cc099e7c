//! Ethernet with ARP as a medium.

ghost use Rattle.std.specs.Prelude.{◌≡◌, ◌≤◌, ◌++◌, [], List, length, take};
ghost use Rattle.line_medium.specs.Prelude.{ShowsBrought, ReportsBrought, acts_among};
ghost use Rattle.ethernet_arp.specs.EtherWay.{ether_medium};
ghost use Rattle.ethernet_arp.specs.Frames.{frame_brings};
ghost use Rattle.ethernet_arp.specs.Learning.{Act};
ghost use Rattle.ethernet_arp.specs.Parts.{Holds};
ghost use Rattle.ethernet_arp.specs.Shown.{IsShown, shown_of};
ghost use Rattle.ethernet_arp.specs.Table.{Knows, host_of};

use crate::arp::Arp;
use crate::frame_part::FramePart;
use crate::framing::{frame_datagram, frame_reply};
use crate::received::{Sorted, sort};
use crate::sizes::{LARGEST_FRAME, LARGEST_FRAMED, SMALLEST_DATAGRAM, SMALLEST_FRAME};
use line_medium::{Decoded, DecodedRun, Medium};
use uip_edge::{Failed, Sink};
use uip_wire::LARGEST_DATAGRAM;

/// A line of Ethernet frames, each after its length in two bytes.
#[derive(Drop)]
pub(crate) struct EtherLine {
    pub arp: Arp,
    part: FramePart,
    out: [u8; LARGEST_FRAMED],
    replied: bool,
    count: usize,
}

impl EtherLine {
    /// Returns a line from which nothing was read.
    pub fn new(arp: Arp) -> EtherLine
        ensures arp { result.arp ≡ arp }
        ensures part { Holds result.part [] }
    {
        EtherLine {
            arp,
            part: FramePart::new(),
            out: [0; LARGEST_FRAMED],
            replied: false,
            count: 0,
        }
    }

    /// Takes the frame that has just become whole.
    fn take_whole(&mut self) -> Decoded
        requires least { SMALLEST_FRAME ≤ self.old.part.len }
        requires most { self.old.part.len ≤ LARGEST_FRAME }
        ensures part { self.new.part ≡ self.old.part }
        ensures host { host_of self.new.arp ≡ host_of self.old.arp }
        ensures reported { ReportsBrought (ether_medium (host_of self.old.arp)) (shown_of self.new) result
            (frame_brings (host_of self.old.arp) (take self.old.part.len self.old.part.area)) }
        ensures knows { (acts : List Act) → Knows self.old.arp acts → Knows self.new.arp
            (acts ++ acts_among (frame_brings (host_of self.old.arp) (take self.old.part.len self.old.part.area))) }
        ensures shows { ShowsBrought (λ n. IsShown self.new n) (shown_of self.new) result }
    {
        match sort(&self.arp, self.part.frame()) {
            Sorted::Nothing => Decoded::Nothing,
            Sorted::Datagram => {
                self.replied = false;
                self.count = self.part.frame().len() - SMALLEST_FRAME;
                Decoded::Datagram(self.count)
            }
            Sorted::Asked(addr, mac) => {
                self.arp.learn(addr, mac);
                self.replied = true;
                self.count = frame_reply(&self.arp, addr, mac, &mut self.out);
                Decoded::Own(self.count)
            }
            Sorted::Replied(addr, mac) => {
                self.arp.learn(addr, mac);
                self.replied = true;
                self.count = 0;
                Decoded::Own(0)
            }
        }
    }
}

impl Medium for EtherLine {
    ghost use Rattle.std.specs.Prelude.{◌≡◌, [], List};
    ghost use Rattle.ethernet_arp.specs.EtherWay.{ether_medium, open_from};
    ghost use Rattle.ethernet_arp.specs.Frames.{Host};
    ghost use Rattle.ethernet_arp.specs.Learning.{Act as EtherAct};
    ghost use Rattle.ethernet_arp.specs.Parts.{Holds};
    ghost use Rattle.ethernet_arp.specs.Shown.{IsShown, shown_of};
    ghost use Rattle.ethernet_arp.specs.Table.{Knows, host_of};

    ghost Act = { EtherAct };

    ghost Config = { Host };

    ghost spec = { λ k. ether_medium k };

    ghost fed = { λ s k before. (host_of s.arp ≡ k) × Holds s.part (open_from [] before) };

    ghost did = { λ s k acts. (host_of s.arp ≡ k) × Knows s.arp acts };

    ghost shown = { λ s. shown_of s };

    ghost shows = { λ s n. IsShown s n };

    fn feed_run(&mut self, bytes: &[u8]) -> DecodedRun {
        let mut run = DecodedRun {
            count: 0,
            brought: Decoded::Nothing,
        };
        if !self.part.is_waiting() {
            run.count = self.part.take_length(bytes);
            return run;
        }
        run.count = self.part.take_frame(bytes);
        if self.part.is_waiting() {
            return run;
        }
        if self.part.is_taken() {
            run.brought = self.take_whole();
        }
        run
    }

    fn shown(&self, count: usize) -> &[u8] {
        if self.replied {
            return &self.out[..count];
        }
        self.part.payload(count)
    }

    fn tick(&mut self) {
        self.arp.tick();
    }

    fn send<K: Sink>(&mut self, datagram: &[u8], sink: &mut K) -> Result<(), Failed> {
        if datagram.len() < SMALLEST_DATAGRAM || datagram.len() > LARGEST_DATAGRAM {
            return Ok(());
        }
        let len = frame_datagram(&self.arp, datagram, &mut self.out);
        sink.write_whole(&self.out[..len])
    }
}
