//! The secret of the guard, and what the guard counts.

ghost use Rattle.std.specs.Prelude.{◌≡◌, ◌==◌, ◌||◌, nat_lt, true};
ghost use Rattle.sip_hash.specs.SipHash.{key_of};
ghost use Rattle.c_calls.specs.Prelude.{IsCallStatus, IsLinkStatus, guard_count};
ghost use Rattle.c_calls.specs.declared.status.TheConstants.{NO_DEVICE, WRONG_LINK};
ghost use Rattle.uip_c.specs.Prelude.{EtherReadies, HandleProtects, HasCounts, NoDevice, ProtectsEther, ProtectsLine, Readies};
ghost use Rattle.uip_c.specs.Prelude.{counts_of, is_on_ether, is_on_line};

use crate::handle::{
    AnyDevice, ON_ETHER, UipDevice, put_ether, put_in, put_line, take_ether, take_line, take_out,
};
use c_calls::{BAD_ARGUMENT, NO_DEVICE, OK, UipNumber, guard_count, read_device};
use guarded_node::GuardCounts;
use sip_hash::Key;
use std::alloc::Global;

/// Gives the guard of a device for a line a secret.
fn protect_line(alloc: Global, device: &mut UipDevice, key: Key) -> u32
    ensures known { IsLinkStatus result }
    ensures fine { result ≡ OK → ProtectsLine key device.old.held.device device.new.held.device }
    ensures ready { Readies key result device.old.held.device device.new.held.device }
    ensures no_device { result ≡ NO_DEVICE → device.old.held.device ≡ NoDevice }
    ensures wrong_link { result ≡ WRONG_LINK → is_on_ether device.old.held.device ≡ true }
    ensures refused { (result ≡ OK → ⊥) → device.new.held.device ≡ device.old.held.device }
{
    let mut opened = match take_line(alloc, device) {
        Ok(opened) => opened,
        Err(status) => return status,
    };
    let is_set = opened.protect(key);
    put_line(device, opened);
    if is_set { OK } else { BAD_ARGUMENT }
}

/// Gives the guard of a device on Ethernet a secret.
fn protect_ether(alloc: Global, device: &mut UipDevice, key: Key) -> u32
    ensures known { IsLinkStatus result }
    ensures fine { result ≡ OK → ProtectsEther key device.old.held.device device.new.held.device }
    ensures ready { EtherReadies key result device.old.held.device device.new.held.device }
    ensures no_device { result ≡ NO_DEVICE → device.old.held.device ≡ NoDevice }
    ensures wrong_link { result ≡ WRONG_LINK → is_on_line device.old.held.device ≡ true }
    ensures refused { (result ≡ OK → ⊥) → device.new.held.device ≡ device.old.held.device }
{
    let mut opened = match take_ether(alloc, device) {
        Ok(opened) => opened,
        Err(status) => return status,
    };
    let is_set = opened.protect(key);
    put_ether(device, opened);
    if is_set { OK } else { BAD_ARGUMENT }
}

/// Sets the secret of the guard, which makes the sequence numbers unpredictable. It comes before the first input. If there is a secret
/// already, or the device has received a datagram or a frame, or was called periodically, the call is refused and changes nothing.
#[unsafe(no_mangle)]
pub extern "C" fn uip_protect(alloc: Global, device: &mut UipDevice, secret: &[u8; 16]) -> u32
    ensures known { IsCallStatus result }
    ensures fine { result ≡ OK → HandleProtects (key_of secret.now) device.old.held.device device.new.held.device }
    ensures ready { Readies (key_of secret.now) result device.old.held.device device.new.held.device }
    ensures ether_ready { EtherReadies (key_of secret.now) result device.old.held.device device.new.held.device }
    ensures no_device { result ≡ NO_DEVICE → device.old.held.device ≡ NoDevice }
    ensures refused { (result ≡ OK → ⊥) → device.new.held.device ≡ device.old.held.device }
{
    let key = Key::new(secret);
    if device.is_open == ON_ETHER {
        protect_ether(alloc, device, key)
    } else {
        protect_line(alloc, device, key)
    }
}

/// Returns what the guard of a device counted.
fn counts_of(opened: &AnyDevice) -> GuardCounts
    ensures { result ≡ counts_of opened.now }
{
    match opened {
        AnyDevice::Line(opened) => opened.guard.counts,
        AnyDevice::Ether(opened) => opened.guard.counts,
    }
}

/// Returns what the guard counted, modulo 2^32: with 1 the datagrams that it dropped, with 2 the connections that it gave up for another.
#[unsafe(no_mangle)]
pub extern "C" fn uip_guard_counter(
    alloc: Global,
    device: &mut UipDevice,
    number: usize,
) -> UipNumber
    ensures known { IsCallStatus result.status }
    ensures fine { result.status ≡ OK → HasCounts (λ counts. result.number ≡ guard_count number counts) device.old.held.device }
    ensures no_device { result.status ≡ NO_DEVICE → device.old.held.device ≡ NoDevice }
    ensures unread { (result.status ≡ OK → ⊥) → result.number ≡ 0 }
    ensures bad_call { (result.status == BAD_ARGUMENT) ≡ ((number == 0) || nat_lt 2 number) }
    ensures same { device.new.held.device ≡ device.old.held.device }
{
    if number == 0 || number > 2 {
        return UipNumber::unread(BAD_ARGUMENT);
    }
    read_device!(UipNumber, alloc, device, opened => guard_count(counts_of(&opened), number))
}
