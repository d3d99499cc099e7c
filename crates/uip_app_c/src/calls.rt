//! The calls over Ethernet (RFC 894) with ARP (RFC 826); what the program reads of a connection, and writes to it; the ports that it opens.

ghost use Rattle.std.specs.Prelude.{◌≡◌, ◌==◌, ◌||◌, ◌≤◌, None, false, length, nat_le, nat_lt, not, take, true};
ghost use Rattle.c_calls.specs.Prelude.{IsCallStatus, IsWriteStatus, Refused};
ghost use Rattle.frame_device.specs.Prelude.{CallsSlot};
ghost use Rattle.own_app.specs.Prelude.{can_listen, is_program_port};
ghost use Rattle.uip_app_c.specs.Prelude.{CannotWrite, InputsOrDrops, OpensPort, OwnAnswers, OwnInputs, OwnListens, OwnWrites, ReadsSlot};
ghost use Rattle.uip_app_c.specs.Prelude.{has_no_room, ports_of};

use crate::handle::{AppDevice, put_in, take_out};
use crate::held::OwnEther;
use c_calls::{BAD_ARGUMENT, NO_DEVICE, NOT_READY, OK, UipReceived, UipResult, copy_prefix};
use frame_device::LARGEST_OUT;
use own_app::{MESSAGE_ROOM, is_program_port};
use own_node::{is_for_closed_port, is_ready, own_port, pending, write};
use std::alloc::Global;

/// Receives a frame of a device, unless it is for a port that is not open. Writes the frame that is sent, if there is one, to the same
/// place. Returns its length.
fn input_or_drop(device: &mut OwnEther, frame: &mut [u8], len: usize) -> usize
    requires within { len ≤ length frame.old }
    requires room { LARGEST_OUT ≤ length frame.old }
    ensures long { length frame.new ≡ length frame.old }
    ensures wrote { result ≤ length frame.new }
    ensures inputs { InputsOrDrops (take len frame.old) device.old device.new (take result frame.new) }
{
    if is_for_closed_port(device.node.shared.ports.as_slice(), &frame[..len]) {
        return 0;
    }
    device.input(frame, len)
}

/// Receives the frame of `len` bytes at the start of `frame`, which has room for 1514 bytes, and writes the frame that is sent, if there is
/// one, to the same place: an ARP packet, or the reply of the node. A frame of fewer than 14 or more than 1514 bytes is dropped, and so is
/// one for another host, or a TCP segment to a port that is not open.
#[unsafe(no_mangle)]
pub extern "C" fn uip_app_input_frame_area(
    alloc: Global,
    device: &mut AppDevice,
    frame: &mut [u8],
    len: usize,
) -> UipResult
    ensures known { IsCallStatus result.status }
    ensures fine { result.status ≡ OK
        → OwnInputs (take len frame.old) device.old.held.device device.new.held.device (take result.written frame.new) }
    ensures whole { result.status ≡ OK → result.consumed ≡ len }
    ensures within { result.written ≤ length frame.new }
    ensures pending { result.pending ≡ 0 }
    ensures no_device { result.status ≡ NO_DEVICE → device.old.held.device ≡ None }
    ensures bad_call { (result.status == BAD_ARGUMENT) ≡ (nat_lt (length frame.old) LARGEST_OUT || nat_lt (length frame.old) len) }
    ensures refused { (result.status ≡ OK → ⊥)
        → Refused result frame.old frame.new device.old.held.device device.new.held.device }
{
    if frame.len() < LARGEST_OUT || frame.len() < len {
        return UipResult::refused(BAD_ARGUMENT);
    }
    let Some(mut opened) = take_out(alloc, device) else {
        return UipResult::refused(NO_DEVICE);
    };
    let written = input_or_drop(&mut opened, frame, len);
    put_in(device, opened);
    UipResult::done(len, written, None)
}

/// Makes the periodic call of a slot, due for each of the ten in turn twice a second; that of slot 0 begins a tick. Writes the frame that
/// is sent, if there is one.
#[unsafe(no_mangle)]
pub extern "C" fn uip_app_periodic_frame(
    alloc: Global,
    device: &mut AppDevice,
    slot: usize,
    frame: &mut [u8],
) -> UipResult
    ensures known { IsCallStatus result.status }
    ensures fine { result.status ≡ OK
        → OwnAnswers (CallsSlot slot) device.old.held.device device.new.held.device (take result.written frame.new) }
    ensures within { (result.consumed ≡ 0) × (result.written ≤ length frame.new) }
    ensures pending { result.pending ≡ 0 }
    ensures no_device { result.status ≡ NO_DEVICE → device.old.held.device ≡ None }
    ensures bad_call { (result.status == BAD_ARGUMENT) ≡ (nat_le 10 slot || nat_lt (length frame.old) LARGEST_OUT) }
    ensures refused { (result.status ≡ OK → ⊥)
        → Refused result frame.old frame.new device.old.held.device device.new.held.device }
{
    if slot >= 10 || frame.len() < LARGEST_OUT {
        return UipResult::refused(BAD_ARGUMENT);
    }
    let Some(mut opened) = take_out(alloc, device) else {
        return UipResult::refused(NO_DEVICE);
    };
    let written = opened.periodic(slot, frame);
    put_in(device, opened);
    UipResult::done(0, written, None)
}

/// Reads the connection in a slot: whether it is ready for a message, and what it received that no message has answered. Copies as many of
/// these bytes as `bytes` has room for, and takes none: `uip_app_write` does.
#[unsafe(no_mangle)]
pub extern "C" fn uip_app_read(
    alloc: Global,
    device: &mut AppDevice,
    slot: usize,
    bytes: &mut [u8],
) -> UipReceived
    ensures known { IsCallStatus result.status }
    ensures fine { result.status ≡ OK → ReadsSlot slot result bytes.old bytes.new device.old.held.device }
    ensures no_device { result.status ≡ NO_DEVICE → device.old.held.device ≡ None }
    ensures bad_call { (result.status == BAD_ARGUMENT) ≡ nat_le 10 slot }
    ensures unread { (result.status ≡ OK → ⊥)
        → (result ≡ record { status = result.status; ready = 0; port = 0; len = 0 }) × (bytes.new ≡ bytes.old) }
    ensures same { device.new.held.device ≡ device.old.held.device }
{
    if slot >= 10 {
        return UipReceived::unread(BAD_ARGUMENT);
    }
    let Some(opened) = take_out(alloc, device) else {
        return UipReceived::unread(NO_DEVICE);
    };
    let is_ready = is_ready(&opened.node, slot);
    let port = own_port(&opened.node, slot);
    let len = copy_prefix(pending(&opened.node, slot), bytes);
    put_in(device, opened);
    UipReceived::read(is_ready, port, len)
}

/// Writes a message of at most 260 bytes to the connection in a slot, and makes the periodic call of the slot, which sends it. The message
/// answers the first `taken` of the bytes that are pending, and these are dropped. If `last` is 1, the connection closes after it.
#[unsafe(no_mangle)]
pub extern "C" fn uip_app_write(
    alloc: Global,
    device: &mut AppDevice,
    slot: usize,
    taken: usize,
    text: &[u8],
    last: u32,
    frame: &mut [u8],
) -> UipResult
    ensures known { IsWriteStatus result.status }
    ensures fine { result.status ≡ OK
        → OwnWrites slot taken text.now (last == 1) device.old.held.device device.new.held.device (take result.written frame.new) }
    ensures within { (result.consumed ≡ 0) × (result.written ≤ length frame.new) }
    ensures pending { result.pending ≡ 0 }
    ensures no_device { result.status ≡ NO_DEVICE → device.old.held.device ≡ None }
    ensures not_ready { result.status ≡ NOT_READY → CannotWrite slot taken device.old.held.device }
    ensures bad_call { (result.status == BAD_ARGUMENT)
        ≡ (nat_le 10 slot || nat_lt MESSAGE_ROOM (length text.now) || nat_lt (length frame.old) LARGEST_OUT) }
    ensures refused { (result.status ≡ OK → ⊥)
        → Refused result frame.old frame.new device.old.held.device device.new.held.device }
{
    if slot >= 10 || text.len() > MESSAGE_ROOM || frame.len() < LARGEST_OUT {
        return UipResult::refused(BAD_ARGUMENT);
    }
    let Some(mut opened) = take_out(alloc, device) else {
        return UipResult::refused(NO_DEVICE);
    };
    if !write(&mut opened.node, slot, taken, text, last == 1) {
        put_in(device, opened);
        return UipResult::refused(NOT_READY);
    }
    let sent = opened.periodic(slot, frame);
    put_in(device, opened);
    UipResult::done(0, sent, None)
}

/// Opens a port of a device. Returns false and changes nothing if it is not open and four others are.
fn listen(device: &mut OwnEther, port: u16) -> bool
    ensures can { result ≡ can_listen port (ports_of device.old) }
    ensures opens { result ≡ true → OpensPort port device.old device.new }
    ensures refused { result ≡ false → device.new ≡ device.old }
{
    device.node.shared.listen(port)
}

/// Opens a port, at most four, for the application. A device that was just opened has none. A port that is open stays open.
#[unsafe(no_mangle)]
pub extern "C" fn uip_app_listen(alloc: Global, device: &mut AppDevice, port: u32) -> u32
    ensures known { IsCallStatus result }
    ensures fine { result ≡ OK → OwnListens port device.old.held.device device.new.held.device }
    ensures no_device { result ≡ NO_DEVICE → device.old.held.device ≡ None }
    ensures bad_call { (result == BAD_ARGUMENT) ≡ (not (is_program_port port) || has_no_room port device.old.held.device) }
    ensures refused { (result ≡ OK → ⊥) → device.new.held.device ≡ device.old.held.device }
{
    if !is_program_port(port) {
        return BAD_ARGUMENT;
    }
    let Some(mut opened) = take_out(alloc, device) else {
        return NO_DEVICE;
    };
    let can_listen = listen(&mut opened, port as u16);
    put_in(device, opened);
    if can_listen { OK } else { BAD_ARGUMENT }
}
