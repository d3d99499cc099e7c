//! Opening and closing a device.

ghost use Rattle.std.specs.Prelude.{◌≡◌, ◌==◌, ◌⊎◌, replicate};
ghost use Rattle.c_calls.specs.Prelude.{ClosesHandle};
ghost use Rattle.c_pages.specs.Prelude.{ReportsFault};
ghost use Rattle.uip_c.specs.Prelude.{NoDevice, OpensFine, has_device};

use crate::handle::{UipDevice, put_line, take_out};
use c_calls::{BAD_IMAGE, HAS_DEVICE, NO_MEMORY, OK, free};
use c_pages::{UipOpened, open_device, plain};
use std::alloc::Global;
use uip_device::open_web;
use uip_wire::Addr;

/// Opens a device at an address with the site of an image, which is read in place and not copied. No later call allocates memory
/// (measured).
/// [add: c-application] An export as this one, which opens a `Device` of the application.
#[unsafe(no_mangle)]
pub extern "C" fn uip_open(
    alloc: Global,
    device: &mut UipDevice,
    image: &'static [u8],
    own: &[u8; 4],
) -> UipOpened
    ensures known { (result.status ≡ OK) ⊎ (result.status ≡ HAS_DEVICE) ⊎ (result.status ≡ BAD_IMAGE) ⊎ (result.status ≡ NO_MEMORY) }
    ensures fine { result.status ≡ OK → OpensFine image.now own.now device.old.held.device device.new.held.device }
    ensures has_device { (result.status == HAS_DEVICE) ≡ has_device device.old.held.device }
    ensures bad_site { result.status ≡ BAD_IMAGE → ReportsFault image.now result.entry result.word }
    ensures no_fault { (result.status ≡ BAD_IMAGE → ⊥) → (result.entry ≡ 0) × (result.word ≡ replicate 8 0) }
    ensures refused { (result.status ≡ OK → ⊥) → device.new ≡ device.old }
{
    if device.is_open == 1 || device.is_open == 2 {
        return plain(HAS_DEVICE);
    }
    open_device!(alloc, device, open_web(alloc, image, Addr(*own)) => put_line)
}

/// Closes the handle's device and frees its memory.
#[unsafe(no_mangle)]
pub extern "C" fn uip_close(alloc: Global, device: &mut UipDevice) -> u32
    ensures closes { ClosesHandle NoDevice has_device result device.new.is_open device.old.held.device device.new.held.device }
{
    free(take_out(alloc, device))
}
