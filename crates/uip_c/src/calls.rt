//! The calls that may send: over a serial line (SLIP, RFC 1055), over a link that carries whole IP datagrams, and over Ethernet (RFC 894)
//! with ARP (RFC 826).

ghost use Rattle.std.specs.Prelude.{◌≡◌, ◌==◌, ◌||◌, ◌<◌, ◌≤◌, ◌⊎◌, is_some, length, nat_le, nat_lt, take, true};
ghost use Rattle.uip_device.specs.Prelude.{Calls, CallsForDatagram, Drains, Feeds, Inputs, StopsAtEnd, CompleteOne, HasFilled};
ghost use Rattle.frame_device.specs.Prelude.{CallsSlot, InputsFrame};
ghost use Rattle.c_calls.specs.Prelude.{IsLinkStatus, IsTextStatus, Refused, left_flag};
ghost use Rattle.uip_c.specs.Prelude.{EtherAnswers, HandleAnswers, HandleAnswersOver, HasText, IsLine, NoDevice, is_on_ether, is_on_line};

use crate::handle::{UipDevice, put_ether, put_line, take_ether, take_idle, take_line};
use c_calls::{BAD_ARGUMENT, NO_DEVICE, OK, OUTPUT_PENDING, UipResult, WRONG_LINK};
use frame_device::LARGEST_OUT;
use std::alloc::Global;
use uip_device::LARGEST_TEXT;
use uip_wire::LARGEST_DATAGRAM;

/// The smallest `out`, in bytes: an escaped byte of a SLIP frame takes two.
pub const MIN_OUT: usize = 2;

/// Feeds received serial bytes, up to the end of the first complete frame, and handles that frame. Writes the SLIP-framed reply, or the
/// part of it that fits in `out`. Call it again with the bytes that were not consumed.
#[unsafe(no_mangle)]
pub extern "C" fn uip_feed(
    alloc: Global,
    device: &mut UipDevice,
    bytes: &[u8],
    out: &mut [u8],
) -> UipResult
    ensures known { IsTextStatus result.status }
    ensures fine { result.status ≡ OK
        → HandleAnswers (Feeds (take result.consumed bytes.now)) device.old.held.device device.new.held.device
        (take result.written out.new) }
    ensures some { result.status ≡ OK → 0 < result.consumed }
    ensures stops { result.status ≡ OK → StopsAtEnd bytes.now result.consumed }
    ensures one { result.status ≡ OK → IsLine (λ d. CompleteOne (take result.consumed bytes.now) d) device.old.held.device }
    ensures within { (result.consumed ≤ length bytes.now) × (result.written ≤ length out.new) }
    ensures pending { result.status ≡ OK → IsLine (λ d. result.pending ≡ left_flag d.left) device.new.held.device }
    ensures all { result.status ≡ OK → LARGEST_TEXT ≤ length out.old → result.pending ≡ 0 }
    ensures full { result.status ≡ OK → IsLine (λ d. HasFilled d result.written (length out.new)) device.new.held.device }
    ensures no_device { result.status ≡ NO_DEVICE → device.old.held.device ≡ NoDevice }
    ensures wrong_link { result.status ≡ WRONG_LINK → is_on_ether device.old.held.device ≡ true }
    ensures bad_call { (result.status == BAD_ARGUMENT) ≡ ((length bytes.now == 0) || nat_lt (length out.old) MIN_OUT) }
    ensures text_left { result.status ≡ OUTPUT_PENDING → HasText device.old.held.device }
    ensures refused { (result.status ≡ OK → ⊥)
        → Refused result out.old out.new device.old.held.device device.new.held.device }
{
    if bytes.is_empty() || out.len() < MIN_OUT {
        return UipResult::refused(BAD_ARGUMENT);
    }
    let mut opened = match take_idle(alloc, device) {
        Ok(opened) => opened,
        Err(status) => return UipResult::refused(status),
    };
    let fed = opened.feed(bytes, out);
    let done = UipResult::done(fed.consumed, fed.written, opened.left);
    put_line(device, opened);
    done
}

/// Makes the periodic call of a slot from 0 to 9; all ten are due twice a second. Writes the SLIP-framed datagram that the connection
/// sends, or the part of it that fits in `out`.
#[unsafe(no_mangle)]
pub extern "C" fn uip_periodic(
    alloc: Global,
    device: &mut UipDevice,
    slot: usize,
    out: &mut [u8],
) -> UipResult
    ensures known { IsTextStatus result.status }
    ensures fine { result.status ≡ OK
        → HandleAnswersOver (Calls slot) (nat_lt 0 result.written) device.old.held.device device.new.held.device (take result.written out.new) }
    ensures within { (result.consumed ≡ 0) × (result.written ≤ length out.new) }
    ensures pending { result.status ≡ OK → IsLine (λ d. result.pending ≡ left_flag d.left) device.new.held.device }
    ensures all { result.status ≡ OK → LARGEST_TEXT ≤ length out.old → result.pending ≡ 0 }
    ensures full { result.status ≡ OK → IsLine (λ d. HasFilled d result.written (length out.new)) device.new.held.device }
    ensures no_device { result.status ≡ NO_DEVICE → device.old.held.device ≡ NoDevice }
    ensures wrong_link { result.status ≡ WRONG_LINK → is_on_ether device.old.held.device ≡ true }
    ensures bad_call { (result.status == BAD_ARGUMENT) ≡ (nat_le 10 slot || nat_lt (length out.old) MIN_OUT) }
    ensures text_left { result.status ≡ OUTPUT_PENDING → HasText device.old.held.device }
    ensures refused { (result.status ≡ OK → ⊥)
        → Refused result out.old out.new device.old.held.device device.new.held.device }
{
    if slot >= 10 || out.len() < MIN_OUT {
        return UipResult::refused(BAD_ARGUMENT);
    }
    let mut opened = match take_idle(alloc, device) {
        Ok(opened) => opened,
        Err(status) => return UipResult::refused(status),
    };
    let written = opened.periodic(slot, out);
    let done = UipResult::done(0, written, opened.left);
    put_line(device, opened);
    done
}

/// Writes pending output, as much as fits in `out`; no bytes if nothing is pending.
#[unsafe(no_mangle)]
pub extern "C" fn uip_drain(alloc: Global, device: &mut UipDevice, out: &mut [u8]) -> UipResult
    ensures known { IsLinkStatus result.status }
    ensures fine { result.status ≡ OK
        → HandleAnswers Drains device.old.held.device device.new.held.device (take result.written out.new) }
    ensures some { result.status ≡ OK → IsLine (λ d. is_some d.left ≡ true → 0 < result.written) device.old.held.device }
    ensures within { (result.consumed ≡ 0) × (result.written ≤ length out.new) }
    ensures pending { result.status ≡ OK → IsLine (λ d. result.pending ≡ left_flag d.left) device.new.held.device }
    ensures full { result.status ≡ OK → IsLine (λ d. HasFilled d result.written (length out.new)) device.new.held.device }
    ensures no_device { result.status ≡ NO_DEVICE → device.old.held.device ≡ NoDevice }
    ensures wrong_link { result.status ≡ WRONG_LINK → is_on_ether device.old.held.device ≡ true }
    ensures bad_call { (result.status == BAD_ARGUMENT) ≡ nat_lt (length out.old) MIN_OUT }
    ensures refused { (result.status ≡ OK → ⊥)
        → Refused result out.old out.new device.old.held.device device.new.held.device }
{
    if out.len() < MIN_OUT {
        return UipResult::refused(BAD_ARGUMENT);
    }
    let mut opened = match take_line(alloc, device) {
        Ok(opened) => opened,
        Err(status) => return UipResult::refused(status),
    };
    let written = opened.drain(out);
    let done = UipResult::done(0, written, opened.left);
    put_line(device, opened);
    done
}

/// Handles a received datagram of 1 to 1500 bytes, and writes the reply, if there is one, to `out`, which has at least 1500 bytes.
#[unsafe(no_mangle)]
pub extern "C" fn uip_input(
    alloc: Global,
    device: &mut UipDevice,
    datagram: &[u8],
    out: &mut [u8],
) -> UipResult
    ensures known { IsTextStatus result.status }
    ensures fine { result.status ≡ OK
        → HandleAnswersOver (Inputs datagram.now) true device.old.held.device device.new.held.device (take result.written out.new) }
    ensures whole { result.status ≡ OK → result.consumed ≡ length datagram.now }
    ensures within { result.written ≤ length out.new }
    ensures pending { result.pending ≡ 0 }
    ensures no_device { result.status ≡ NO_DEVICE → device.old.held.device ≡ NoDevice }
    ensures wrong_link { result.status ≡ WRONG_LINK → is_on_ether device.old.held.device ≡ true }
    ensures bad_call { (result.status == BAD_ARGUMENT)
        ≡ ((length datagram.now == 0) || nat_lt LARGEST_DATAGRAM (length datagram.now) || nat_lt (length out.old) LARGEST_DATAGRAM) }
    ensures text_left { result.status ≡ OUTPUT_PENDING → HasText device.old.held.device }
    ensures refused { (result.status ≡ OK → ⊥)
        → Refused result out.old out.new device.old.held.device device.new.held.device }
{
    if datagram.is_empty() || datagram.len() > LARGEST_DATAGRAM || out.len() < LARGEST_DATAGRAM {
        return UipResult::refused(BAD_ARGUMENT);
    }
    let mut opened = match take_idle(alloc, device) {
        Ok(opened) => opened,
        Err(status) => return UipResult::refused(status),
    };
    let written = opened.input(datagram, out);
    put_line(device, opened);
    UipResult::done(datagram.len(), written, None)
}

/// Makes the periodic call of a slot, as `uip_periodic`. Writes the datagram that the connection sends, if there is one.
#[unsafe(no_mangle)]
pub extern "C" fn uip_periodic_datagram(
    alloc: Global,
    device: &mut UipDevice,
    slot: usize,
    out: &mut [u8],
) -> UipResult
    ensures known { IsTextStatus result.status }
    ensures fine { result.status ≡ OK
        → HandleAnswersOver (CallsForDatagram slot) true device.old.held.device device.new.held.device (take result.written out.new) }
    ensures within { (result.consumed ≡ 0) × (result.written ≤ length out.new) }
    ensures pending { result.pending ≡ 0 }
    ensures no_device { result.status ≡ NO_DEVICE → device.old.held.device ≡ NoDevice }
    ensures wrong_link { result.status ≡ WRONG_LINK → is_on_ether device.old.held.device ≡ true }
    ensures bad_call { (result.status == BAD_ARGUMENT) ≡ (nat_le 10 slot || nat_lt (length out.old) LARGEST_DATAGRAM) }
    ensures text_left { result.status ≡ OUTPUT_PENDING → HasText device.old.held.device }
    ensures refused { (result.status ≡ OK → ⊥)
        → Refused result out.old out.new device.old.held.device device.new.held.device }
{
    if slot >= 10 || out.len() < LARGEST_DATAGRAM {
        return UipResult::refused(BAD_ARGUMENT);
    }
    let mut opened = match take_idle(alloc, device) {
        Ok(opened) => opened,
        Err(status) => return UipResult::refused(status),
    };
    let written = opened.periodic_datagram(slot, out);
    put_line(device, opened);
    UipResult::done(0, written, None)
}

/// Receives the frame of `len` bytes at the start of `frame`, which has room for 1514 bytes, and writes the frame that is sent, if there is
/// one, to the same place: an ARP packet, or the reply of the node. A frame of fewer than 14 or more than 1514 bytes is dropped, and so is
/// one for another host.
#[unsafe(no_mangle)]
pub extern "C" fn uip_input_frame_area(
    alloc: Global,
    device: &mut UipDevice,
    frame: &mut [u8],
    len: usize,
) -> UipResult
    ensures known { IsLinkStatus result.status }
    ensures fine { result.status ≡ OK
        → EtherAnswers (InputsFrame (take len frame.old)) device.old.held.device device.new.held.device (take result.written frame.new) }
    ensures whole { result.status ≡ OK → result.consumed ≡ len }
    ensures within { result.written ≤ length frame.new }
    ensures pending { result.pending ≡ 0 }
    ensures no_device { result.status ≡ NO_DEVICE → device.old.held.device ≡ NoDevice }
    ensures wrong_link { result.status ≡ WRONG_LINK → is_on_line device.old.held.device ≡ true }
    ensures bad_call { (result.status == BAD_ARGUMENT) ≡ (nat_lt (length frame.old) LARGEST_OUT || nat_lt (length frame.old) len) }
    ensures refused { (result.status ≡ OK → ⊥)
        → Refused result frame.old frame.new device.old.held.device device.new.held.device }
{
    if frame.len() < LARGEST_OUT || frame.len() < len {
        return UipResult::refused(BAD_ARGUMENT);
    }
    let mut opened = match take_ether(alloc, device) {
        Ok(opened) => opened,
        Err(status) => return UipResult::refused(status),
    };
    let written = opened.input(frame, len);
    put_ether(device, opened);
    UipResult::done(len, written, None)
}

/// Makes the periodic call of a slot, as `uip_periodic`. Writes the frame that is sent, if there is one. The call of slot 0 begins a tick,
/// which ages the learned addresses.
#[unsafe(no_mangle)]
pub extern "C" fn uip_periodic_frame(
    alloc: Global,
    device: &mut UipDevice,
    slot: usize,
    frame: &mut [u8],
) -> UipResult
    ensures known { IsLinkStatus result.status }
    ensures fine { result.status ≡ OK
        → EtherAnswers (CallsSlot slot) device.old.held.device device.new.held.device (take result.written frame.new) }
    ensures within { (result.consumed ≡ 0) × (result.written ≤ length frame.new) }
    ensures pending { result.pending ≡ 0 }
    ensures no_device { result.status ≡ NO_DEVICE → device.old.held.device ≡ NoDevice }
    ensures wrong_link { result.status ≡ WRONG_LINK → is_on_line device.old.held.device ≡ true }
    ensures bad_call { (result.status == BAD_ARGUMENT) ≡ (nat_le 10 slot || nat_lt (length frame.old) LARGEST_OUT) }
    ensures refused { (result.status ≡ OK → ⊥)
        → Refused result frame.old frame.new device.old.held.device device.new.held.device }
{
    if slot >= 10 || frame.len() < LARGEST_OUT {
        return UipResult::refused(BAD_ARGUMENT);
    }
    let mut opened = match take_ether(alloc, device) {
        Ok(opened) => opened,
        Err(status) => return UipResult::refused(status),
    };
    let written = opened.periodic(slot, frame);
    put_ether(device, opened);
    UipResult::done(0, written, None)
}
