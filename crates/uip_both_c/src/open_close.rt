//! Opening and closing a device.

ghost use Rattle.std.specs.Prelude.{◌≡◌, ◌==◌, ◌⊎◌, None, is_some, replicate};
ghost use Rattle.c_calls.specs.Prelude.{ClosesHandle};
ghost use Rattle.c_pages.specs.Prelude.{ReportsFault};
ghost use Rattle.uip_both_c.specs.Prelude.{OpensBoth, OpensBothEther};

use crate::handle::{UipDevice, put_in, take_out};
use crate::held::BothEther;
use app_pair::PairShared;
use c_calls::{BAD_IMAGE, HAS_DEVICE, NO_MEMORY, OK, free};
use c_pages::{UipOpened, open_device, plain};
use ethernet_arp::Mac;
use frame_device::{Ethernet, FrameDevice, Network};
use own_app::OwnShared;
use std::alloc::Global;
use uip_device::{OpenFault, open_shared};
use uip_edge::NoMemory;
use uip_wire::{Addr, Port, WEB_PORT};

/// Returns a device on Ethernet with the site of an image.
fn open_ether(
    alloc: Global,
    image: &'static [u8],
    own: Addr,
    mac: Mac,
    network: Network,
) -> Result<BothEther, OpenFault>
    ensures { OpensBothEther image.now own mac network result }
{
    let first = match open_shared(alloc, image) {
        Ok(first) => first,
        Err(fault) => return Err(fault),
    };
    let shared = PairShared {
        first,
        second: OwnShared::first(),
    };
    match FrameDevice::new(
        alloc,
        own,
        Ethernet::new(own, mac, network),
        shared,
        Some(Port(WEB_PORT)),
    ) {
        Ok(device) => Ok(device),
        Err(NoMemory) => Err(OpenFault::NoMemory),
    }
}

/// Opens a device on Ethernet at an address and a hardware address, with the site of an image, which is read in place and not copied. A
/// target that under the mask is not in the network of the address is sent to by the router. If the mask or the router is 0.0.0.0, every
/// target is on the link. The device has learned no hardware address. No later call allocates memory (measured).
#[unsafe(no_mangle)]
pub extern "C" fn uip_open_ether(
    alloc: Global,
    device: &mut UipDevice,
    image: &'static [u8],
    own: &[u8; 4],
    mac: &[u8; 6],
    mask: &[u8; 4],
    router: &[u8; 4],
) -> UipOpened
    ensures known { (result.status ≡ OK) ⊎ (result.status ≡ HAS_DEVICE) ⊎ (result.status ≡ BAD_IMAGE) ⊎ (result.status ≡ NO_MEMORY) }
    ensures fine { result.status ≡ OK
        → OpensBoth image.now own.now mac.now mask.now router.now device.old.held.device device.new.held.device }
    ensures has_device { (result.status == HAS_DEVICE) ≡ is_some device.old.held.device }
    ensures bad_site { result.status ≡ BAD_IMAGE → ReportsFault image.now result.entry result.word }
    ensures no_fault { (result.status ≡ BAD_IMAGE → ⊥) → (result.entry ≡ 0) × (result.word ≡ replicate 8 0) }
    ensures refused { (result.status ≡ OK → ⊥) → device.new ≡ device.old }
{
    if device.is_open == 1 {
        return plain(HAS_DEVICE);
    }
    let network = Network {
        mask: Addr(*mask),
        router: Addr(*router),
    };
    let made = open_ether(alloc, image, Addr(*own), Mac(*mac), network);
    open_device!(alloc, device, made => put_in)
}

/// Closes the handle's device and frees its memory.
#[unsafe(no_mangle)]
pub extern "C" fn uip_close(alloc: Global, device: &mut UipDevice) -> u32
    ensures closes { ClosesHandle None is_some result device.new.is_open device.old.held.device device.new.held.device }
{
    free(take_out(alloc, device))
}
