//! The decoding of frames into an area of the caller's: an incremental state machine, which is proved equal to `frames` of the whole list
//! of bytes (RFC 1055). Between the frames the caller may use the area for something else.

ghost use Rattle.std.specs.Prelude.{◌≡◌, ◌≤◌, ◌<◌, ◌++◌, ◌+◌, [], ◌∷◌, List, ℕ, length, take, true, false};
ghost use Rattle.uip_slip.specs.Frames.{IsPlainPrefix, is_plain};
ghost use Rattle.std.specs.List.{list_all};

use crate::fed::{Fed, FedRun};
use crate::marks::{END, ESC, meant};
use crate::plain_runs::put_plain;
use std::marker::Model;
use uip_wire::LARGEST_DATAGRAM;

/// What is known of the frame that is received in an area: its length so far, whether it is overlong, whether an ESC waits, and whether it
/// is a datagram that was just decoded.
#[derive(Drop)]
pub struct Part {
    len: usize,
    over: bool,
    waits: bool,
    reported: bool,
}

impl Model for Part {
    ghost use Rattle.std.specs.Prelude.{◌≤◌};
    ghost use Rattle.uip_wire.specs.declared.sizes.TheConstants.{LARGEST_DATAGRAM};
    ghost use Rattle.uip_slip.specs.Decoding.{PartState};

    ghost Value = { PartState };

    ghost view = { λ p. record { len = p.len; over = p.over; waits = p.waits; reported = p.reported } };

    ghost invariant = { λ p. p.len ≤ LARGEST_DATAGRAM };
}

/// A shorter prefix means that marks are close together: a run of fewer than eight bytes, an ESC and the byte after it.
const SHORT_FRONT: usize = 10;

/// This many bytes are fed one by one after a short prefix.
const DENSE_BYTES: usize = 16;

/// Returns whether a byte is END or ESC, so that there is no run before it.
fn is_mark(byte: u8) -> bool {
    byte == END || byte == ESC
}

/// Returns how many more bytes are fed one by one, after a prefix of `count` bytes that ends with this one. Each frame begins with an END.
fn still_dense(dense: usize, count: usize, last: u8) -> usize {
    if dense > 0 {
        return dense - 1;
    }
    if count < SHORT_FRONT && last != END {
        DENSE_BYTES
    } else {
        0
    }
}

impl Part {
    ghost use Rattle.uip_slip.specs.Decoding.{EndsFrame, FeedsBytes, FeedsPrefix, IsNoise, Leaves, WasFed, is_free, state_in};
    ghost use Rattle.uip_slip.specs.declared.fed.Fed.TheVariants.{More};
    ghost use Rattle.uip_slip.specs.Steps.{reopened, taken, pushed, joined_parts, Closes};

    /// Returns that of a decoder that was fed nothing, whatever its area contains.
    pub fn new() -> Part
        ensures { (area : List ℕ) → WasFed [] (state_in area result) }
    {
        Part {
            len: 0,
            over: false,
            waits: false,
            reported: false,
        }
    }

    /// Feeds one byte. The bytes of a datagram that it completes stay readable until the next call.
    #[inline(never)]
    pub fn feed(&mut self, area: &mut [u8], byte: u8) -> Fed
        requires size { length area.old ≡ LARGEST_DATAGRAM }
        ensures long { length area.new ≡ length area.old }
        // Whatever was fed before, the results report its frames.
        ensures frames { FeedsBytes (state_in area.old self.old) (byte ∷ []) result (state_in area.new self.new) }
        ensures leaves { Leaves result (state_in area.new self.new) }
        ensures end { EndsFrame result byte }
    {
        if byte == END {
            return self.feed_end(area);
        }
        self.reopen();
        self.take(area, byte);
        Fed::More
    }

    /// Feeds an END, as `feed` does.
    #[inline(always)]
    fn feed_end(&mut self, area: &mut [u8]) -> Fed
        requires size { length area.old ≡ LARGEST_DATAGRAM }
        ensures long { length area.new ≡ length area.old }
        ensures frames { FeedsBytes (state_in area.old self.old) (END ∷ []) result (state_in area.new self.new) }
        ensures leaves { Leaves result (state_in area.new self.new) }
    {
        self.reopen();
        self.close()
    }

    /// Feeds a prefix of the bytes: up to an END that completes a frame, or all of them. The result is that of feeding them one by one, but
    /// a run without END and ESC is copied as a whole.
    pub fn feed_run(&mut self, area: &mut [u8], bytes: &[u8]) -> FedRun
        requires size { length area.old ≡ LARGEST_DATAGRAM }
        requires some { 0 < length bytes.now }
        ensures long { length area.new ≡ length area.old }
        ensures prefix { FeedsPrefix (state_in area.old self.old) bytes.now result (state_in area.new self.new) }
        ensures whole { result.fed ≡ More → result.count ≡ length bytes.now }
    {
        let mut first = 0;
        if bytes[0] == END {
            match self.feed_end(area) {
                Fed::More if bytes.len() > 1 => first = 1,
                fed => return FedRun { count: 1, fed },
            }
        }
        let parts = self.feed_parts(area, &bytes[first..]);
        FedRun {
            count: first + parts.count,
            fed: parts.fed,
        }
    }

    /// The same, part by part.
    fn feed_parts(&mut self, area: &mut [u8], bytes: &[u8]) -> FedRun
        requires size { length area.old ≡ LARGEST_DATAGRAM }
        requires some { 0 < length bytes.now }
        ensures long { length area.new ≡ length area.old }
        ensures prefix { FeedsPrefix (state_in area.old self.old) bytes.now result (state_in area.new self.new) }
        ensures whole { result.fed ≡ More → result.count ≡ length bytes.now }
    {
        let mut count = 0;
        let mut dense = 0;
        while count < bytes.len() {
            let is_alone = self.waits || is_mark(bytes[count]);
            let prefix = self.feed_part(area, &bytes[count..], is_alone || dense > 0);
            count += prefix.count;
            match prefix.fed {
                Fed::More => {}
                fed => return FedRun { count, fed },
            }
            if !is_alone {
                dense = still_dense(dense, prefix.count, bytes[count - 1]);
            }
        }
        FedRun {
            count,
            fed: Fed::More,
        }
    }

    /// Feeds a prefix of the bytes: one byte if marks are close together, else a run with the mark after it.
    #[inline(always)]
    fn feed_part(&mut self, area: &mut [u8], bytes: &[u8], is_dense: bool) -> FedRun
        requires size { length area.old ≡ LARGEST_DATAGRAM }
        requires some { 0 < length bytes.now }
        ensures long { length area.new ≡ length area.old }
        ensures fed { FeedsPrefix (state_in area.old self.old) bytes.now result (state_in area.new self.new) }
    {
        if is_dense {
            let fed = self.feed(area, bytes[0]);
            return FedRun { count: 1, fed };
        }
        self.feed_prefix(area, bytes)
    }

    /// Feeds the bytes before the next END or ESC, and that mark, if it is there.
    #[inline(always)]
    fn feed_prefix(&mut self, area: &mut [u8], bytes: &[u8]) -> FedRun
        requires size { length area.old ≡ LARGEST_DATAGRAM }
        requires some { 0 < length bytes.now }
        ensures long { length area.new ≡ length area.old }
        ensures fed { FeedsPrefix (state_in area.old self.old) bytes.now result (state_in area.new self.new) }
    {
        self.reopen();
        let count = self.join_plain(area, bytes);
        if count == bytes.len() {
            return FedRun {
                count,
                fed: Fed::More,
            };
        }
        let mark = self.feed_mark(area, &bytes[count..]);
        FedRun {
            count: count + mark.count,
            fed: mark.fed,
        }
    }

    /// Feeds a byte, and the next one if the first completes nothing, so that an ESC goes with the byte that it escapes.
    #[inline(always)]
    fn feed_mark(&mut self, area: &mut [u8], bytes: &[u8]) -> FedRun
        requires size { length area.old ≡ LARGEST_DATAGRAM }
        requires some { 0 < length bytes.now }
        ensures long { length area.new ≡ length area.old }
        ensures fed { FeedsPrefix (state_in area.old self.old) bytes.now result (state_in area.new self.new) }
    {
        match self.feed(area, bytes[0]) {
            Fed::More if bytes.len() > 1 => FedRun {
                count: 2,
                fed: self.feed(area, bytes[1]),
            },
            fed => FedRun { count: 1, fed },
        }
    }

    /// Discards a datagram that was decoded.
    #[inline(always)]
    fn reopen(&mut self)
        ensures { (area : List ℕ) → state_in area self.new ≡ reopened (state_in area self.old) }
    {
        if self.reported {
            self.len = 0;
            self.reported = false;
        }
    }

    /// Feeds an END.
    #[inline(always)]
    fn close(&mut self) -> Fed
        ensures { (area : List ℕ) → length area ≡ LARGEST_DATAGRAM → Closes (state_in area self.old) result (state_in area self.new) }
    {
        let len = self.len;
        let over = self.over;
        self.over = false;
        self.waits = false;
        if !over && len > 0 {
            self.reported = true;
            return Fed::Datagram(len);
        }
        self.reported = false;
        self.len = 0;
        if over { Fed::Overlong } else { Fed::More }
    }

    /// Feeds a byte of the part.
    #[inline(always)]
    fn take(&mut self, area: &mut [u8], byte: u8)
        requires size { length area.old ≡ LARGEST_DATAGRAM }
        ensures long { length area.new ≡ length area.old }
        ensures fed { state_in area.new self.new ≡ taken (state_in area.old self.old) byte }
    {
        if self.waits {
            self.push(area, meant(byte));
        } else if byte == ESC {
            self.waits = true;
            self.reported = false;
        } else {
            self.push(area, byte);
        }
    }

    /// Appends a byte to the frame.
    #[inline(always)]
    fn push(&mut self, area: &mut [u8], byte: u8)
        requires size { length area.old ≡ LARGEST_DATAGRAM }
        ensures long { length area.new ≡ length area.old }
        ensures fed { state_in area.new self.new ≡ pushed (state_in area.old self.old) byte }
    {
        self.waits = false;
        self.reported = false;
        if self.len < LARGEST_DATAGRAM {
            area[self.len] = byte;
            self.len += 1;
        } else {
            self.over = true;
        }
    }

    /// Appends the bytes before the next END or ESC to the frame, as far as there is room, and returns how many they are.
    #[inline(always)]
    fn join_plain(&mut self, area: &mut [u8], bytes: &[u8]) -> usize
        requires size { length area.old ≡ LARGEST_DATAGRAM }
        ensures long { length area.new ≡ length area.old }
        ensures within { result ≤ length bytes.now }
        ensures plain { list_all is_plain (take result bytes.now) ≡ true }
        ensures waiting { self.old.waits ≡ true → (result ≡ 0) × (state_in area.new self.new ≡ state_in area.old self.old) }
        ensures joined { self.old.waits ≡ false → state_in area.new self.new ≡ joined_parts (state_in area.old self.old) (take result bytes.now) }
    {
        if self.waits {
            return 0;
        }
        let room = LARGEST_DATAGRAM - self.len;
        self.append_plain(area, &bytes[..bytes.len().min(room)])
    }

    /// Appends the bytes before the next END or ESC to the frame, in which there is room, and returns how many they are.
    #[inline(always)]
    fn append_plain(&mut self, area: &mut [u8], bytes: &[u8]) -> usize
        requires size { length area.old ≡ LARGEST_DATAGRAM }
        requires room { self.old.len + length bytes.now ≤ LARGEST_DATAGRAM }
        ensures long { length area.new ≡ length area.old }
        ensures prefix { IsPlainPrefix bytes.now result }
        ensures fed { state_in area.new self.new
            ≡ record (state_in area.old self.old) { bytes = take self.old.len area.old ++ take result bytes.now } }
    {
        let count = put_plain(area, self.len, bytes);
        self.len += count;
        count
    }

    /// Returns the datagram that was just decoded.
    pub fn bytes<'a>(&self, area: &'a [u8], count: usize) -> &'a [u8]
        requires size { length area.now ≡ LARGEST_DATAGRAM }
        requires count { count ≡ length (take self.now.len area.now) }
        ensures { result.now ≡ take self.now.len area.now }
    {
        &area[..count]
    }

    /// Returns whether the area has no byte of an open frame that can still become a datagram, so that it may be changed.
    pub fn is_free(&self) -> bool
        ensures { result ≡ is_free self.now }
    {
        self.over || self.reported || self.len == 0
    }

    /// Gives the area up, so that it may be changed. A frame that is partly received is lost, as if noise had come within it.
    pub fn give_up(&mut self)
        ensures free { is_free self.new ≡ true }
        ensures kept { is_free self.old ≡ true → self.new ≡ self.old }
        ensures spoils { is_free self.old ≡ false → (bytes noise area : List ℕ) → IsNoise noise → WasFed bytes (state_in area self.old)
            → WasFed (bytes ++ noise) (state_in area self.new) }
    {
        if self.is_free() {
            return;
        }
        self.over = true;
        self.waits = false;
        self.reported = false;
    }
}
