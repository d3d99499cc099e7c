ghost use Rattle.std.specs.Prelude.{[], ◌≡◌, ◌≤◌, ◌++◌, List, length, take};
ghost use Rattle.line_medium.specs.Prelude.{acts_among};
ghost use Rattle.frame_device.specs.FrameSpecs.{DecodesBytes, FitsFrame, FrameSpec, ReportsFrame, acts_output};

use uip_wire::LARGEST_DATAGRAM;

/// The length of the longest frame that is sent, in bytes: 14 and the longest datagram.
pub const LARGEST_OUT: usize = 1514;

/// What a received frame was decoded to.
#[derive(Clone, Copy, Debug, PartialEq, Eq)]
pub enum Decoded {
    /// No datagram, and nothing is sent.
    Nothing,
    /// A datagram of `len` bytes at an offset of the buffer.
    Datagram { at: usize, len: usize },
    /// An event of the link's own, for which it wrote a frame of this length.
    Own(usize),
}

/// A link that carries datagrams in frames. Each frame is received and sent whole. The link may have events of its own, and never sees the
/// node.
pub trait Frames: Drop {
    /// The events of its own.
    ghost Act: { Type 0 };

    /// Its configuration, which no call changes.
    ghost Config: { Type 0 };

    /// Its specification, in this configuration.
    ghost spec: { Self.Config → FrameSpec Self.Act };

    /// It has this configuration, and these were its events so far.
    ghost did: { Self → Self.Config → List Self.Act → Type 0 };

    /// Receives the frame of `len` bytes at the start of a buffer. A datagram stays in the buffer. For an event of its own it may write
    /// a frame to the start.
    fn take(&mut self, buf: &mut [u8], len: usize) -> Decoded
        requires within { len ≤ length buf.old }
        requires room { LARGEST_OUT ≤ length buf.old }
        ensures long { length buf.new ≡ length buf.old }
        ensures fits { FitsFrame (length buf.new) result }
        ensures reported { (k : Self.Config) (acts : List Self.Act) → did self.old k acts
            → ReportsFrame (spec k) buf.new result ((spec k).decodes (take len buf.old)) }
        ensures did { (k : Self.Config) (acts : List Self.Act) → did self.old k acts
            → did self.new k (acts ++ acts_among ((spec k).decodes (take len buf.old))) };

    /// Begins a tick, at which it sends nothing.
    fn tick(&mut self)
        ensures silent { (k : Self.Config) → acts_output (spec k) (spec k).at_tick ≡ [] }
        ensures did { (k : Self.Config) (acts : List Self.Act) → did self.old k acts
            → did self.new k (acts ++ (spec k).at_tick) };

    /// Writes the frame for a datagram. Returns its length, or 0 if none is sent.
    fn wrap(&self, datagram: &[u8], out: &mut [u8]) -> usize
        requires most { length datagram.now ≤ LARGEST_DATAGRAM }
        requires room { LARGEST_OUT ≤ length out.old }
        ensures long { length out.new ≡ length out.old }
        ensures within { result ≤ length out.new }
        ensures text { (k : Self.Config) (acts : List Self.Act) → did self.now k acts
            → take result out.new ≡ (spec k).text acts datagram.now };

    /// Frames of bytes decode to bytes.
    ghost bytes: { (k : Self.Config) → DecodesBytes (spec k) };
}
