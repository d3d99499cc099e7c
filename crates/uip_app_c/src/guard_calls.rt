//! The secret of the guard, and what the guard counts.

ghost use Rattle.std.specs.Prelude.{◌≡◌, ◌==◌, ◌||◌, None, Some, false, is_some, nat_lt, not, true};
ghost use Rattle.c_calls.specs.Prelude.{IsCallStatus};
ghost use Rattle.frame_device.specs.Prelude.{GainsSecret};
ghost use Rattle.sip_hash.specs.SipHash.{key_of};
ghost use Rattle.uip_app_c.specs.Prelude.{ProtectsOwn, ReadsGuard, is_late};

use crate::handle::{AppDevice, put_in, take_out};
use crate::held::OwnEther;
use c_calls::{BAD_ARGUMENT, NO_DEVICE, OK, UipNumber, guard_count, read_device};
use sip_hash::Key;
use std::alloc::Global;

/// Gives the guard of a device a secret. Returns false and changes nothing if that is too late.
fn protect(device: &mut OwnEther, secret: &[u8; 16]) -> bool
    ensures may { result ≡ not (device.old.is_used || is_some device.old.guard.rules.key) }
    ensures set { result ≡ true → GainsSecret (key_of secret.now) device.old device.new }
    ensures refused { result ≡ false → device.new ≡ device.old }
{
    device.protect(Key::new(secret))
}

/// Gives the guard of a device a secret of 16 random bytes, before the first frame and the first periodic call. It is refused later, and
/// if there is a secret.
#[unsafe(no_mangle)]
pub extern "C" fn uip_app_protect(alloc: Global, device: &mut AppDevice, secret: &[u8; 16]) -> u32
    ensures known { IsCallStatus result }
    ensures fine { result ≡ OK → ProtectsOwn (Some secret.now) device.old.held.device device.new.held.device }
    ensures no_device { result ≡ NO_DEVICE → device.old.held.device ≡ None }
    ensures late { (result == BAD_ARGUMENT) ≡ is_late device.old.held.device }
    ensures refused { (result ≡ OK → ⊥) → device.new.held.device ≡ device.old.held.device }
{
    let Some(mut opened) = take_out(alloc, device) else {
        return NO_DEVICE;
    };
    let is_set = protect(&mut opened, secret);
    put_in(device, opened);
    if is_set { OK } else { BAD_ARGUMENT }
}

/// Returns what the guard counted, modulo 2^32: with 1 the datagrams that it dropped, with 2 the connections that it gave up for another.
#[unsafe(no_mangle)]
pub extern "C" fn uip_app_guard_counter(
    alloc: Global,
    device: &mut AppDevice,
    number: usize,
) -> UipNumber
    ensures known { IsCallStatus result.status }
    ensures fine { result.status ≡ OK → ReadsGuard number result.number device.old.held.device }
    ensures no_device { result.status ≡ NO_DEVICE → device.old.held.device ≡ None }
    ensures unread { (result.status ≡ OK → ⊥) → result.number ≡ 0 }
    ensures bad_call { (result.status == BAD_ARGUMENT) ≡ ((number == 0) || nat_lt 2 number) }
    ensures same { device.new.held.device ≡ device.old.held.device }
{
    if number == 0 || number > 2 {
        return UipNumber::unread(BAD_ARGUMENT);
    }
    read_device!(UipNumber, alloc, device, opened => guard_count(opened.guard.counts, number))
}
