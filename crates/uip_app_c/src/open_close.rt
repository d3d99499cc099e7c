//! Opening and closing a device.

ghost use Rattle.std.specs.Prelude.{◌≡◌, ◌==◌, ◌⊎◌, IfOk, None, is_some};
ghost use Rattle.c_calls.specs.Prelude.{ClosesHandle};
ghost use Rattle.uip_app_c.specs.Prelude.{IsFreshOwnEther, OpensOwn};

use crate::handle::{AppDevice, put_in, take_out};
use crate::held::OwnEther;
use c_calls::{HAS_DEVICE, NO_MEMORY, OK, free};
use ethernet_arp::Mac;
use frame_device::{Ethernet, FrameDevice, Network};
use own_app::OwnShared;
use std::alloc::Global;
use uip_edge::NoMemory;
use uip_wire::Addr;

/// Makes a device on Ethernet. It has learned no hardware address. After this no call allocates memory.
fn open_ether(alloc: Global, own: Addr, mac: Mac, network: Network) -> Result<OwnEther, NoMemory>
    ensures { IfOk result (IsFreshOwnEther own mac network) }
{
    FrameDevice::new(
        alloc,
        own,
        Ethernet::new(own, mac, network),
        OwnShared::first(),
        None,
    )
}

/// Opens a device on Ethernet at an address and a hardware address. A target that under the mask is not in the network of the address is
/// sent to by the router. If the mask or the router is 0.0.0.0, every target is on the link. The device has learned no hardware address. No
/// later call allocates memory (measured).
#[unsafe(no_mangle)]
pub extern "C" fn uip_app_open(
    alloc: Global,
    device: &mut AppDevice,
    own: &[u8; 4],
    mac: &[u8; 6],
    mask: &[u8; 4],
    router: &[u8; 4],
) -> u32
    ensures known { (result ≡ OK) ⊎ (result ≡ HAS_DEVICE) ⊎ (result ≡ NO_MEMORY) }
    ensures fine { result ≡ OK → OpensOwn own.now mac.now mask.now router.now device.old.held.device device.new.held.device }
    ensures has_device { (result == HAS_DEVICE) ≡ is_some device.old.held.device }
    ensures refused { (result ≡ OK → ⊥) → device.new ≡ device.old }
{
    if device.is_open == 1 {
        return HAS_DEVICE;
    }
    let network = Network {
        mask: Addr(*mask),
        router: Addr(*router),
    };
    let Ok(opened) = open_ether(alloc, Addr(*own), Mac(*mac), network) else {
        return NO_MEMORY;
    };
    let Ok(opened) = Box::new(alloc, opened) else {
        return NO_MEMORY;
    };
    put_in(device, opened);
    OK
}

/// Closes the handle's device and frees its memory. Its connections end without a segment.
#[unsafe(no_mangle)]
pub extern "C" fn uip_app_close(alloc: Global, device: &mut AppDevice) -> u32
    ensures closes { ClosesHandle None is_some result device.new.is_open device.old.held.device device.new.held.device }
{
    free(take_out(alloc, device))
}
