//! The handle of a device, and how a call takes the device out of it and puts it back.

ghost use Rattle.std.specs.Prelude.{◌≡◌, ◌==◌, ◌<◌, ◌≤◌, IfErr, IfOk, IfSome, length};
ghost use Rattle.uip_device.specs.Prelude.{IsSoundWebDevice};
ghost use Rattle.uip_c.specs.Handles.{HandleGives};
ghost use Rattle.uip_c.specs.Kept.{NoDevice, OnEther, OnLine, is_on_ether, is_on_line};
ghost use Rattle.uip_c.specs.Taking.{IsSoundAny, TakesEther, TakesIdle, TakesLine, TakesNoIdle, TakesNone, kept_by, kept_of, node_of};

use crate::held::{EtherWeb, Held};
use c_calls::{NO_DEVICE, OUTPUT_PENDING, WRONG_LINK};
use raw_box::BoxParts;
use std::alloc::Global;
use std::mem::replace;
use uip_device::{ValuePages, WebDevice, set_node_value};
use uip_node::Node;

/// The value of `is_open` with a device for a serial line or datagrams.
const ON_LINE: u32 = 1;

/// The value of `is_open` with a device on Ethernet.
pub(crate) const ON_ETHER: u32 = 2;

/// A handle. All bytes 0 represent a handle without a device.
#[repr(C)]
pub struct UipDevice {
    pub is_open: u32,
    pub held: Held,
    pub ghost line: { (is_open == 1) ≡ is_on_line held.device },
    pub ghost ether: { (is_open == 2) ≡ is_on_ether held.device },
}

/// A device that was taken out of its handle.
#[derive(Drop)]
pub(crate) enum AnyDevice {
    Line(Box<WebDevice>),
    Ether(Box<EtherWeb>),
}

/// Takes what the handle keeps; it keeps nothing after.
fn empty(alloc: Global, device: &mut UipDevice) -> Held
    ensures held { result ≡ device.old.held }
    ensures none { device.new.held.device ≡ NoDevice }
    ensures shut { device.new.is_open ≡ 0 }
{
    let UipDevice { is_open: _, held } = replace(
        device,
        UipDevice {
            is_open: 0,
            held: Held::none(alloc),
        },
    );
    held
}

/// Takes the device for a line out of the handle, which has none after. If there is no such device, the handle is unchanged.
pub(crate) fn take_line(alloc: Global, device: &mut UipDevice) -> Result<Box<WebDevice>, u32>
    ensures taken { IfOk result (λ b. TakesLine b.value device.old.held.device device.new.held.device) }
    ensures refused { IfErr result (λ status. TakesNone is_on_ether status device.old.held.device device.new.held.device) }
{
    match device.is_open {
        ON_LINE => Ok(empty(alloc, device).into_parts().into_box()),
        ON_ETHER => Err(WRONG_LINK),
        _ => Err(NO_DEVICE),
    }
}

/// Takes the device on Ethernet out of the handle, which has none after. If there is no such device, the handle is unchanged.
pub(crate) fn take_ether(alloc: Global, device: &mut UipDevice) -> Result<Box<EtherWeb>, u32>
    ensures taken { IfOk result (λ b. TakesEther b.value device.old.held.device device.new.held.device) }
    ensures refused { IfErr result (λ status. TakesNone is_on_line status device.old.held.device device.new.held.device) }
{
    match device.is_open {
        ON_ETHER => Ok(empty(alloc, device).into_ether_parts().into_box()),
        ON_LINE => Err(WRONG_LINK),
        _ => Err(NO_DEVICE),
    }
}

/// Takes the device out of the handle, which has none after.
pub(crate) fn take_out(alloc: Global, device: &mut UipDevice) -> Option<AnyDevice>
    ensures taken { kept_by result ≡ device.old.held.device }
    ensures sound { IfSome result IsSoundAny }
    ensures none { device.new.held.device ≡ NoDevice }
    ensures shut { device.new.is_open ≡ 0 }
{
    let is_open = device.is_open;
    let held = empty(alloc, device);
    match is_open {
        ON_LINE => Some(AnyDevice::Line(held.into_parts().into_box())),
        ON_ETHER => Some(AnyDevice::Ether(held.into_ether_parts().into_box())),
        _ => {
            let _alloc = held.into_alloc();
            None
        }
    }
}

/// Takes the device for a line out of the handle for a call that writes output of its own; the handle has none after. If there is no such
/// device, or output is pending, the call is refused and the handle is unchanged.
pub(crate) fn take_idle(alloc: Global, device: &mut UipDevice) -> Result<Box<WebDevice>, u32>
    ensures taken { IfOk result (λ b. TakesIdle b.value device.old.held.device device.new.held.device) }
    ensures refused { IfErr result (λ status. TakesNoIdle status device.old.held.device device.new.held.device) }
{
    match take_line(alloc, device) {
        Err(status) => Err(status),
        Ok(opened) if opened.left.is_some() => {
            put_line(device, opened);
            Err(OUTPUT_PENDING)
        }
        Ok(opened) => Ok(opened),
    }
}

/// Has a handle keep this, with its number for C, if it keeps nothing.
fn fill(device: &mut UipDevice, is_open: u32, held: Held)
    requires none { device.old.held.device ≡ NoDevice }
    requires line { (is_open == 1) ≡ is_on_line held.device }
    requires ether { (is_open == 2) ≡ is_on_ether held.device }
    ensures held { device.new.held ≡ held }
{
    let UipDevice {
        is_open: _,
        held: before,
    } = replace(device, UipDevice { is_open, held });
    let _alloc = before.into_alloc();
}

/// Puts a device for a line into a handle that has none.
pub(crate) fn put_line(device: &mut UipDevice, opened: Box<WebDevice>)
    requires none { device.old.held.device ≡ NoDevice }
    requires sound { IsSoundWebDevice opened.value }
    ensures { device.new.held.device ≡ OnLine opened.value }
{
    fill(device, ON_LINE, Held::of(BoxParts::from_box(opened)));
}

/// Puts a device on Ethernet into a handle that has none.
pub(crate) fn put_ether(device: &mut UipDevice, opened: Box<EtherWeb>)
    requires none { device.old.held.device ≡ NoDevice }
    ensures { device.new.held.device ≡ OnEther opened.value }
{
    fill(device, ON_ETHER, Held::of_ether(BoxParts::from_box(opened)));
}

/// Puts a device into a handle that has none.
pub(crate) fn put_in(device: &mut UipDevice, opened: AnyDevice)
    requires none { device.old.held.device ≡ NoDevice }
    requires sound { IsSoundAny opened }
    ensures { device.new.held.device ≡ kept_of opened }
{
    match opened {
        AnyDevice::Line(opened) => put_line(device, opened),
        AnyDevice::Ether(opened) => put_ether(device, opened),
    }
}

/// Returns the node of a device.
pub(crate) fn node_of(opened: &AnyDevice) -> &Node<ValuePages>
    ensures { result.now ≡ node_of opened.now }
{
    match opened {
        AnyDevice::Line(opened) => &opened.node,
        AnyDevice::Ether(opened) => &opened.node,
    }
}

/// Sets a value of a device.
pub(crate) fn give(opened: &mut AnyDevice, number: usize, text: &[u8])
    requires number { number < 16 }
    requires short { length text.now ≤ 32 }
    requires sound { IsSoundAny opened.old }
    ensures sound { IsSoundAny opened.new }
    ensures gives { HandleGives number text.now (kept_of opened.old) (kept_of opened.new) }
{
    match opened {
        AnyDevice::Line(opened) => opened.set_value(number, text),
        AnyDevice::Ether(opened) => set_node_value(&mut opened.node, number, text),
    }
}
